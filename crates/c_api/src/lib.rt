// check, add, ask, the two moves, printing a rule, dumps, captions and figures for C and for languages that call C; include/mikhakun.h declares them. They assume nothing of the texts, the tables, the buffers and the numbers.
// A caller lends memory of the length given behind each pointer, and no two of one call overlap.
#![tactic(auto)]

ghost use Rattle.std.specs.Prelude.{◌≡◌, true, false, [], ◌∷◌};
ghost use Rattle.spec_refusals.specs.Numbers.{fault_number};
ghost use Rattle.table_marks.specs.Values.{value_says};
ghost use Rattle.spec_operations.specs.WritingSays.{writing_says};
ghost use Rattle.c_api.specs.Leaves.{left, leaves, one_value_lem, answer_values, part_values, CheckLeaves, AddLeaves, AskLeaves, MoveLeaves, PrintLeaves, WriteDumpLeaves, ReadDumpLeaves, CaptionLeaves, FigureLeaves};

use op_add::add;
use op_ask::ask;
use op_caption::caption_part;
use op_check::check;
use op_dump::reading::read_dump;
use op_dump::writing::write_dump;
use op_figures::figures;
use op_moves::moves::{to_readings, to_spans};
use op_print::print_rule;
use read_captions::Part;
use spec_figures::Record;
use spec_refusals::Refusal;
use table_marks::Value;

// Tells a refusal: its place, and its number.
fn tell_refusal(refusal: Refusal, place: &mut u64) -> u64
    ensures { (result ≡ fault_number refusal.fault) × (place.new ≡ refusal.place) }
{
    *place = refusal.place as u64;
    refusal.number() as u64
}

// Tells an answer that is a number, a row count or a text's length: 0 and the number, or a refusal's number and its place.
fn tell_number(answer: Result<usize, Refusal>, number: &mut u64, place: &mut u64) -> u64
    ensures { left result place.new (number.new ∷ []) ≡ leaves one_value_lem place.old (number.old ∷ []) (writing_says answer) }
{
    match answer {
        Ok(n) => {
            *number = n as u64;
            0
        }
        Err(r) => tell_refusal(r, place),
    }
}

// Checks the sheet: 0 and the row count, or a refusal's number and its place.
#[unsafe(no_mangle)]
pub extern "C" fn mikhakun_check(sheet: &[u8], rows: &mut u64, place: &mut u64) -> u64
    ensures { CheckLeaves sheet.now place.old (rows.old ∷ []) (left result place.new (rows.new ∷ [])) }
{
    let answer = check(sheet);
    tell_number(answer, rows, place)
}

// Adds the readings to the table: 0, how many facts are new and whether there is a clash, or a refusal's number and its place.
#[unsafe(no_mangle)]
pub extern "C" fn mikhakun_add(
    sheet: &[u8],
    readings: &[u8],
    table: &mut [u64],
    new_facts: &mut u64,
    clash: &mut u64,
    place: &mut u64,
) -> u64
    ensures { AddLeaves sheet.now readings.now table.old table.new place.old (new_facts.old ∷ clash.old ∷ []) (left result place.new (new_facts.new ∷ clash.new ∷ [])) }
{
    match add(sheet, readings, table) {
        Ok(added) => {
            *new_facts = added.new as u64;
            *clash = added.clash as u64;
            0
        }
        Err(r) => tell_refusal(r, place),
    }
}

// A value's number.
fn number_of(v: Value) -> u64
    ensures { result ∷ [] ≡ answer_values (value_says v) }
{
    match v {
        Value::Unsettled => 0,
        Value::True => 1,
        Value::False => 2,
        Value::Contradiction => 3,
    }
}

// Asks the table for a signal's value at a tick: 0 and the value's number, or a refusal's number and its place.
#[unsafe(no_mangle)]
pub extern "C" fn mikhakun_ask(
    sheet: &[u8],
    table: &[u64],
    signal: u64,
    tick: u64,
    value: &mut u64,
    place: &mut u64,
) -> u64
    ensures { AskLeaves sheet.now table.now signal tick place.old (value.old ∷ []) (left result place.new (value.new ∷ [])) }
{
    match ask(sheet, table, signal as usize, tick as usize) {
        Ok(v) => {
            *value = number_of(v);
            0
        }
        Err(r) => tell_refusal(r, place),
    }
}

// Writes the readings as spans, merged and sorted.
#[unsafe(no_mangle)]
pub extern "C" fn mikhakun_to_spans(
    sheet: &[u8],
    readings: &[u8],
    out: &mut [u8],
    length: &mut u64,
    place: &mut u64,
) -> u64
    ensures { MoveLeaves true sheet.now readings.now out.old out.new place.old (length.old ∷ []) (left result place.new (length.new ∷ [])) }
{
    let w = to_spans(sheet, readings, out);
    tell_number(w, length, place)
}

// Writes the readings one by one, each once, in the same order.
#[unsafe(no_mangle)]
pub extern "C" fn mikhakun_to_readings(
    sheet: &[u8],
    readings: &[u8],
    out: &mut [u8],
    length: &mut u64,
    place: &mut u64,
) -> u64
    ensures { MoveLeaves false sheet.now readings.now out.old out.new place.old (length.old ∷ []) (left result place.new (length.new ∷ [])) }
{
    let w = to_readings(sheet, readings, out);
    tell_number(w, length, place)
}

// Prints a rule back.
#[unsafe(no_mangle)]
pub extern "C" fn mikhakun_print_rule(
    sheet: &[u8],
    rule: u64,
    out: &mut [u8],
    length: &mut u64,
    place: &mut u64,
) -> u64
    ensures { PrintLeaves sheet.now rule out.old out.new place.old (length.old ∷ []) (left result place.new (length.new ∷ [])) }
{
    let w = print_rule(sheet, rule as usize, out);
    tell_number(w, length, place)
}

// Writes a table as a dump.
#[unsafe(no_mangle)]
pub extern "C" fn mikhakun_write_dump(
    sheet: &[u8],
    table: &[u64],
    out: &mut [u8],
    length: &mut u64,
    place: &mut u64,
) -> u64
    ensures { WriteDumpLeaves sheet.now table.now out.old out.new place.old (length.old ∷ []) (left result place.new (length.new ∷ [])) }
{
    let w = write_dump(sheet, table, out);
    tell_number(w, length, place)
}

// Writes the readings of a dump.
#[unsafe(no_mangle)]
pub extern "C" fn mikhakun_read_dump(
    sheet: &[u8],
    dump: &[u8],
    out: &mut [u8],
    length: &mut u64,
    place: &mut u64,
) -> u64
    ensures { ReadDumpLeaves sheet.now dump.now out.old out.new place.old (length.old ∷ []) (left result place.new (length.new ∷ [])) }
{
    let w = read_dump(sheet, dump, out);
    tell_number(w, length, place)
}

// Tells a part: whether it is in the captions' text, where it starts, and its length.
fn tell_part(part: Part, in_captions: &mut u64, start: &mut u64, length: &mut u64)
    ensures { in_captions.new ∷ start.new ∷ length.new ∷ [] ≡ part_values part }
{
    match part {
        Part::InSheet(a, n) => {
            *in_captions = 0;
            *start = a as u64;
            *length = n as u64;
        }
        Part::InCaptions(a, n) => {
            *in_captions = 1;
            *start = a as u64;
            *length = n as u64;
        }
    }
}

// What is shown of a signal: 0 and the part of the captions or of the sheet, or a refusal's number and its place.
#[unsafe(no_mangle)]
pub extern "C" fn mikhakun_caption(
    sheet: &[u8],
    captions: &[u8],
    signal: u64,
    in_captions: &mut u64,
    start: &mut u64,
    length: &mut u64,
    place: &mut u64,
) -> u64
    ensures { CaptionLeaves sheet.now captions.now signal place.old (in_captions.old ∷ start.old ∷ length.old ∷ []) (left result place.new (in_captions.new ∷ start.new ∷ length.new ∷ [])) }
{
    match caption_part(sheet, captions, signal as usize) {
        Ok(part) => {
            tell_part(part, in_captions, start, length);
            0
        }
        Err(r) => tell_refusal(r, place),
    }
}

// Runs the texts against the sheet, and fills a record for each signal: 0, or a refusal's number and its place.
#[unsafe(no_mangle)]
pub extern "C" fn mikhakun_figures(
    sheet: &[u8],
    texts: &[u8],
    lengths: &[u64],
    work: &mut [u64],
    records: &mut [Record],
    place: &mut u64,
) -> u64
    ensures { FigureLeaves sheet.now texts.now lengths.now work.old work.new records.old records.new place.old (left result place.new []) }
{
    match figures(sheet, texts, lengths, work, records) {
        Ok(()) => 0,
        Err(r) => tell_refusal(r, place),
    }
}
