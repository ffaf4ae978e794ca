// The lines of a sheet's rules, each read into one arena and lowered with the defining rules of its hidden signals before the next is read.
// Assumes that the head was accepted. `names` is the index of the names in the sheet text `s`.
#![tactic(auto)]

ghost use Rattle.std.specs.Prelude.{◌+◌, ◌≤◌};
ghost use Rattle.spec_limits.specs.Limits.{most_hidden};
ghost use Rattle.read_index.specs.Index.{name_count};
ghost use Rattle.lower_rule.specs.RuleRows.{buffers, RuleIn, whole_at, all_lowered_says};
ghost use Rattle.lower_lines.specs.InTurn.{Legible, rules_at, FullSize, RoomIn, Follows, RulesRead};

use lower_rule::rules::{InUse, lower_whole_rule};
use read_index::LINKS;
use read_sheet::rules::rule_line;
use spec_limits::ARENA;
use spec_refusals::Refusal;

// How many hidden signals the rules have, the place after their lines, and how far they are lowered, if there was room.
#[derive(Clone, Copy)]
pub struct RuleLines {
    pub hidden: usize,
    pub end: usize,
    pub lowered: Option<InUse>,
}

// The rule at a node of the arena, with so many hidden signals, after those that are lowered. Once there was no room, none is lowered.
fn lower_next(
    arena: &[u16],
    node: usize,
    hidden: usize,
    tops: &mut [u16],
    out: &mut [u64],
    lowered: Option<InUse>,
) -> Option<InUse>
    requires rule_in { RuleIn arena.now node hidden }
    requires room_in { RoomIn (buffers out.old tops.old) (all_lowered_says lowered) }
    ensures { Follows (whole_at arena.now node) (buffers out.old tops.old) (buffers out.new tops.new) lowered result }
{
    let last = lowered?;
    if tops.len() - last.tops <= hidden {
        return None;
    }
    lower_whole_rule(arena, node, hidden, tops, last.tops, out, last.rows)
}

// The rules on the `m` lines from `first` on, lowered as those of a sheet with `hidden` hidden signals. Once there is no room, they are only
// read: a refusal of a later line comes before that of the sheet's size.
pub fn read_rules(
    s: &[u8],
    names: &[u16],
    m: usize,
    first: usize,
    hidden: usize,
    tops: &mut [u16],
    out: &mut [u64],
) -> Result<RuleLines, Refusal>
    requires legible { Legible s.now names.now m first × (hidden ≤ most_hidden) }
    requires full_size { FullSize (buffers out.old tops.old) }
    ensures { RulesRead (rules_at s.now names.now m first) (name_count names.now) (name_count names.now + hidden) (buffers out.old tops.old) (buffers out.new tops.new) result }
{
    let mut arena = [0u16; ARENA];
    let signals = names.len() - LINKS;
    let mut lowered = Some(InUse {
        tops: 0,
        rows: signals + hidden,
    });
    let mut place = first;
    let mut row = signals;
    for i in 0..m {
        let rule = rule_line(s, names, &mut arena, place, row)?;
        let own = rule.rows - row;
        lowered = lower_next(&arena, rule.nodes - 1, own, tops, out, lowered);
        place = rule.place;
        row = rule.rows;
    }
    Ok(RuleLines {
        hidden: row - signals,
        end: place,
        lowered,
    })
}
