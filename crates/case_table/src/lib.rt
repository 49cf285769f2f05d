//! Tables of cases for test programs. A table is text, one case a line:
//!
//!     name: input => output
//!
//! An input or an output stands for bytes: `|` for byte 10, `~` for a carriage return, `^` for a tab, `@` for byte 0, `%`
//! for byte 255, `#` for sections KIT and LEVELS of the sample order, `$` for its sections LOADS and CARD, `&` for its
//! section CARD alone, and any other byte for itself.
#![tactic(auto)]

ghost use Rattle.std.specs.Prelude.{◌≡◌, ◌++◌, IfOk, MatchOption, OnOk, flat_map};
ghost use Rattle.case_table.specs.Cases.{IsCase, IsCut, IsNoCase, Lacks};
ghost use Rattle.case_table.specs.Spelling.{meant, spelled};

use std::alloc::{AllocError, Global};

const FRAME: &[u8] = b"KIT 0\nLEVELS 2\n100 30 2000 50 52 100\n50 30 1000 50 52 100\n";

const NO_LOADS: &[u8] = b"LOADS 0\n";

const CARD: &[u8] = b"CARD 1\nII B 360 100 20 60 - 20 100 W 110 60\n";

/// What the cases of a table are about.
pub trait Subject {
    /// Whether this input gives this output. No contract says so: cases that are wrong on purpose do.
    fn gives(input: &[u8], output: &[u8], heap: Global) -> Result<bool, AllocError>;
}

/// Reads a table on standard input, and names the lines that are no case, and those whose input does not give their output.
pub fn run_cases<S: Subject>(rt: &HostRuntime) -> anyhow::Result<()> {
    let heap = rt.alloc();
    let mut good = 0u32;
    for line in rt.lines(heap) {
        let line = line?;
        let Some((input, output)) = case_of(&line) else {
            println!(rt; "no case: {line}")?;
            continue;
        };
        let input = spelled_out(input, heap)?;
        let output = spelled_out(output, heap)?;
        if S::gives(&input, &output, heap)? {
            good = good.saturating_add(1);
        } else {
            println!(rt; "differs: {line}")?;
        }
    }
    println!(rt; "{good} cases are as they should be")?;
    Ok(())
}

// The input of a case and its output; nothing where the line is no case.
fn case_of(line: &str) -> Option<(&str, &str)>
    ensures { MatchOption result (IsNoCase line.now) (λ p. IsCase line.now p.0.now p.1.now) }
{
    let (_name, case) = cut(line, ": ")?;
    cut(case, " => ")
}

// What stands before the first such mark in a text, and what stands after it.
fn cut<'a>(text: &'a str, mark: &str) -> Option<(&'a str, &'a str)>
    ensures { MatchOption result (Lacks mark.now text.now) (λ p. IsCut mark.now text.now p.0.now p.1.now) }
{
    text.split_once(mark)
}

/// The bytes that a text of a table stands for.
pub fn spelled_out(text: &str, heap: Global) -> Result<Vec<u8>, AllocError>
    ensures { IfOk result (λ bytes. bytes.items ≡ flat_map spelled text.now) }
{
    let mut bytes = Vec::new(heap);
    for b in text.bytes() {
        add_spelled(&mut bytes, b)?;
    }
    Ok(bytes)
}

// Adds what a byte of a table stands for.
fn add_spelled(bytes: &mut Vec<u8>, b: u8) -> Result<(), AllocError>
    ensures { OnOk result (bytes.new.items ≡ bytes.old.items ++ spelled b) }
{
    match b {
        b'#' => bytes.extend_from_slice(FRAME)?,
        b'$' => {
            bytes.extend_from_slice(NO_LOADS)?;
            bytes.extend_from_slice(CARD)?
        }
        b'&' => bytes.extend_from_slice(CARD)?,
        _ => bytes.push(meant(b))?,
    }
    Ok(())
}

// The byte that a byte stands for, unless it stands for sections.
fn meant(b: u8) -> u8
    ensures { result ≡ meant b }
{
    match b {
        b'|' => b'\n',
        b'~' => b'\r',
        b'^' => b'\t',
        b'@' => 0,
        b'%' => 255,
        _ => b,
    }
}
