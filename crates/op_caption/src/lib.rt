// caption: the part of the captions or of the sheet that is shown of a signal; and the same as a place and a length, or its refusal. Assumes nothing.
#![tactic(auto)]

ghost use Rattle.std.specs.Prelude.{◌≡◌, ◌≤◌, length};
ghost use Rattle.spec_tilco.specs.Lists.{All};
ghost use Rattle.read_index.specs.Index.{places_in, name_count, names_in, IndexOf};
ghost use Rattle.read_captions.specs.Captions.{no_captions, captions_in};
ghost use Rattle.spec_caption.specs.Captioning.{part_by, caption_part, ShowsCaption};
ghost use Rattle.op_caption.specs.CaptioningSays.{captioning_says};

use open_sheet::open_sheet;
use read_captions::{Part, note_captions, part_of, shown_part};
use read_index::{INDEX, LINKS};
use spec_limits::{ROWS, SIGNALS, TOPS};
use spec_refusals::{Fault, Refusal};

// The part that is shown of a signal of an opened sheet. No signal has a caption in the list before.
fn part_noted(
    s: &[u8],
    names: &[u16],
    c: &[u8],
    captions: &mut [Option<usize>],
    signal: usize,
) -> Result<Part, Refusal>
    requires { IndexOf s.now names.now × All (λ p. p ≤ length s.now) (places_in names.now) × (captions.old ≡ no_captions (name_count names.now)) }
    ensures { captioning_says result ≡ part_by s.now c.now (places_in names.now) signal (captions_in (names_in s.now names.now) c.now) }
{
    note_captions(s, names, c, captions)?;
    if captions.len() <= signal {
        return Err(Refusal {
            fault: Fault::Asked,
            place: 0,
        });
    }
    let name = names[LINKS + signal] as usize;
    let caption = captions[signal];
    Ok(shown_part(s, c, name, caption))
}

// Which text is shown of a signal, where the part starts and how long it is; or the refusal.
pub fn caption_part(s: &[u8], c: &[u8], signal: usize) -> Result<Part, Refusal>
    ensures { captioning_says result ≡ caption_part s.now c.now signal }
{
    let mut names = [0u16; INDEX];
    let mut rows = [8u64; ROWS];
    let mut tops = [0u16; TOPS];
    let sheet = open_sheet(s, &mut names, &mut rows, &mut tops)?;
    let signals = sheet.signals;
    let mut captions: [Option<usize>; SIGNALS] = [None; SIGNALS];
    part_noted(
        s,
        &names[..LINKS + signals],
        c,
        &mut captions[..signals],
        signal,
    )
}

// What is shown of a signal: its caption, a part of the captions' text, where its name has a line there, and else its name, a part of the sheet.
// No byte where `caption_part` gives a refusal.
pub fn caption<'a>(sheet: &'a [u8], captions: &'a [u8], signal: usize) -> &'a [u8]
    ensures { ShowsCaption sheet.entry captions.entry result (caption_part sheet.now captions.now signal) }
{
    match caption_part(sheet, captions, signal) {
        Ok(part) => part_of(sheet, captions, part),
        Err(_) => &sheet[..0],
    }
}
