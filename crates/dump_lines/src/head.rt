// The lines of a dump up to `#0`. Assumes nothing of the dump; a line that is not the one asked for is refused as `DumpLine` at its first byte.
ghost use Rattle.std.specs.Prelude.{◌≡◌, [], ◌∷◌, ◌<◌, ◌≤◌, length, map};
ghost use Rattle.spec_limits.specs.Limits.{most_signals};
ghost use Rattle.read_lines.specs.Lines.{says};
ghost use Rattle.read_index.specs.Index.{name_count, names_in, IndexOf};
ghost use Rattle.spec_dump.specs.DumpLines.{one_of_texts, this_line, timescale_line, var_form, var_line, var_lines, head_end, head_lines};
ghost use Rattle.dump_lines.specs.PlaceSays.{place_says};

use read_index::{LINKS, find};
use read_lines::{keyed, line_end};
use spec_refusals::{Fault, Refusal};

// The first of the texts that stands at `q`, in the line at `p`: the place after it.
fn one_of_texts(d: &[u8], p: usize, q: usize, texts: &[&[u8]]) -> Result<usize, Refusal>
    requires { q ≤ length d.now }
    ensures { place_says 0 result ≡ one_of_texts d.now p q (map (λ w. w.now) texts.now) }
{
    for w in texts {
        if keyed(d, q, w) {
            let next = q + w.len();
            return Ok(next);
        }
    }
    Err(Refusal {
        fault: Fault::DumpLine,
        place: p,
    })
}

// The line `w` itself, with its LF: the place after it.
fn this_line(d: &[u8], p: usize, w: &[u8]) -> Result<usize, Refusal>
    requires { p ≤ length d.now }
    ensures { place_says 0 result ≡ this_line d.now p w.now }
{
    one_of_texts(d, p, p, &[w])
}

// The line of the timescale at `p`: the place after it.
fn timescale_line(d: &[u8], p: usize) -> Result<usize, Refusal>
    requires { p ≤ length d.now }
    ensures { place_says 0 result ≡ timescale_line d.now p }
{
    let q = one_of_texts(d, p, p, &[b"$timescale "])?;
    let r = one_of_texts(d, p, q, &[b"1 ", b"10 ", b"100 "])?;
    one_of_texts(
        d,
        p,
        r,
        &[
            b"s $end\n",
            b"ms $end\n",
            b"us $end\n",
            b"ns $end\n",
            b"ps $end\n",
            b"fs $end\n",
        ],
    )
}

// The line of signal `x` at `p` in its form: the name's place, and that of the LF.
fn var_form(d: &[u8], x: usize, p: usize) -> Result<(usize, usize), Refusal>
    requires { (x < most_signals) × (p ≤ length d.now) }
    ensures { says result ≡ var_form d.now x p }
{
    let other_line = Err(Refusal {
        fault: Fault::DumpLine,
        place: p,
    });
    if !keyed(d, p, b"$var wire 1 ") {
        return other_line;
    }
    let v = p + 14;
    if d.len() < v {
        return other_line;
    }
    if d[p + 12] as usize != 33 + x {
        return other_line;
    }
    if d[p + 13] != b' ' {
        return other_line;
    }
    let e = line_end(d, v);
    if d.len() <= e {
        return other_line;
    }
    if e < v + 5 {
        return other_line;
    }
    if keyed(d, e - 5, b" $end") {
        Ok((v, e))
    } else {
        other_line
    }
}

// The line of signal `x` at `p`: the place after it. What is found among the names is a name, and is not judged.
fn var_line(s: &[u8], names: &[u16], d: &[u8], x: usize, p: usize) -> Result<usize, Refusal>
    requires { IndexOf s.now names.now × (x < name_count names.now) × (p ≤ length d.now) }
    ensures { place_says x result ≡ var_line (names_in s.now names.now) d.now x p }
{
    let (v, e) = var_form(d, x, p)?;
    let f = find(s, names, d, v);
    let unknown = Err(Refusal {
        fault: Fault::UnknownName,
        place: v,
    });
    if f.end != e - 5 {
        return unknown;
    }
    if f.signal == x {
        return Ok(e + 1);
    }
    if f.signal < names.len() - LINKS {
        Err(Refusal {
            fault: Fault::DumpLine,
            place: p,
        })
    } else {
        unknown
    }
}

// The lines of all signals from `p` on: the place after them.
fn var_lines(s: &[u8], names: &[u16], d: &[u8], p: usize) -> Result<usize, Refusal>
    requires { IndexOf s.now names.now × (p ≤ length d.now) }
    ensures { place_says (name_count names.now) result ≡ var_lines (names_in s.now names.now) d.now (name_count names.now) 0 p }
{
    let mut at = p;
    for x in 0..names.len() - LINKS {
        at = var_line(s, names, d, x, at)?;
    }
    Ok(at)
}

// The lines after those of the signals: the place after them.
fn head_end(d: &[u8], p: usize) -> Result<usize, Refusal>
    requires { p ≤ length d.now }
    ensures { place_says 0 result ≡ head_end d.now p }
{
    let q = this_line(d, p, b"$upscope $end\n")?;
    let r = this_line(d, q, b"$enddefinitions $end\n")?;
    this_line(d, r, b"#0\n")
}

// The lines up to `#0`: the place after it.
pub fn head_lines(s: &[u8], names: &[u16], d: &[u8]) -> Result<usize, Refusal>
    requires { IndexOf s.now names.now }
    ensures { place_says 0 result ≡ head_lines (names_in s.now names.now) d.now }
{
    let p = timescale_line(d, 0)?;
    let q = this_line(d, p, b"$scope module sheet $end\n")?;
    let r = var_lines(s, names, d, q)?;
    head_end(d, r)
}
