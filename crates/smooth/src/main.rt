// Document 01's program: a whole job from standard input, little-endian words of the plan and then the heights.
#![tactic(auto)]

ghost use Rattle.std.specs.Prelude.{◌≡◌, ◌+◌, ◌*◌, ◌<◌, ◌≤◌, length, take, IfOk, IfSome, OnOk};
ghost use Rattle.std.specs.Io.KnownBytes.{Appends, Consumes, ConsumesCount, IsAtEnd};
ghost use Rattle.smooth.specs.Input.{StandsFor};
ghost use Rattle.smooth.specs.Printed.{word_text, row_text, rows_text, output_text, given_text, program_text};
ghost use Rattle.smooth_job.specs.Program.{input_limit, cut_limit, line_in, smooth_given};

use refusal::Refusal;
use smooth_job::{CUT_LIMIT, INPUT_LIMIT, PIXEL_LIMIT, Smoothed};
use std::io;
use std::io::{Read, Write};

// The most reads after the first bytes. A proved loop has to end, and nothing says that an input does: these are more reads than
// a run can make, and few enough that the bytes they count fit 64 bits. An input of fewer bytes is read to its end.
const READ_LIMIT: usize = 1099511627776;

fn main(rt: HostRuntime) -> io::Result<()> {
    run(&mut rt.stdin(), &mut io::writer(&rt))
}

// Does the job that the reader's bytes ask for, and writes the answer.
fn run<R: Read, W: Write>(reader: &mut R, out: &mut W) -> io::Result<()>
    ensures { OnOk result (IfSome (R.remaining reader.old) (λ input. length input < READ_LIMIT → Appends (W.contents out.old) (W.contents out.new) (program_text input))) }
{
    let mut input = [0; CUT_LIMIT];
    let count = read_input(reader, &mut input)?;
    let mut output = [0; PIXEL_LIMIT];
    let answer = smooth_job::smooth(&input[..count], &mut output);
    print_answer(out, answer, &output)
}

// ---- reading

// Reads the input to its end, keeps its first bytes, and answers how many bytes stand for it.
fn read_input<R: Read>(reader: &mut R, input: &mut [u8]) -> io::Result<usize>
    requires { input_limit ≤ length input.old }
    ensures limit { IfOk result (λ count. count ≤ cut_limit) }
    ensures whole { IfOk result (λ count. IfSome (R.remaining reader.old) (λ whole. length whole < READ_LIMIT → StandsFor whole input.new count)) }
{
    let first = smooth_job::read_full(reader, &mut input[..INPUT_LIMIT])?;
    if first < INPUT_LIMIT {
        return Ok(first);
    }
    let count = count_input(reader)?;
    Ok(smooth_job::cut_length(count))
}

// How many bytes an input has whose first are read.
fn count_input<R: Read>(reader: &mut R) -> io::Result<usize>
    ensures { IfOk result (λ count. IfSome (R.remaining reader.old) (λ rest. length rest < READ_LIMIT → count ≡ input_limit + length rest)) }
{
    let mut count = INPUT_LIMIT;
    for _ in 0..READ_LIMIT {
        let more = read_more(reader)?;
        if more == 0 {
            return Ok(count);
        }
        count += more;
    }
    Ok(count)
}

// Reads on, keeps nothing, and answers how many bytes came: 0 at the end of the input.
fn read_more<R: Read>(reader: &mut R) -> io::Result<usize>
    ensures limit { IfOk result (λ count. count ≤ 65536) }
    ensures bytes { ConsumesCount (R.remaining reader.old) (R.remaining reader.new) result }
    ensures end { IfOk result (λ count. count ≡ 0 → IsAtEnd (R.remaining reader.new)) }
{
    let mut space = [0; 65536];
    reader.read(&mut space)
}

// ---- printing

fn print_answer<W: Write>(
    out: &mut W,
    answer: Result<Smoothed, Refusal>,
    output: &[u64],
) -> io::Result<()>
    requires { IfOk answer (λ smoothed. smoothed.rows * smoothed.columns ≤ length output.now) }
    ensures { OnOk result (Appends (W.contents out.old) (W.contents out.new) (given_text (smooth_given answer) output.now)) }
{
    match answer {
        Ok(smoothed) => print_output(out, smoothed, output),
        Err(refusal) => writeln!(out, "{refusal}"),
    }
}

fn print_output<W: Write>(out: &mut W, smoothed: Smoothed, output: &[u64]) -> io::Result<()>
    requires { smoothed.rows * smoothed.columns ≤ length output.now }
    ensures { OnOk result (Appends (W.contents out.old) (W.contents out.new) (output_text (line_in smoothed) output.now)) }
{
    let Smoothed {
        rows,
        columns,
        marked,
        tally,
    } = smoothed;
    writeln!(
        out,
        "rows {rows} columns {columns} tasks {marked} words {tally}"
    )?;
    print_rows(out, rows, columns, output)
}

fn print_rows<W: Write>(out: &mut W, rows: usize, columns: usize, output: &[u64]) -> io::Result<()>
    requires { rows * columns ≤ length output.now }
    ensures { OnOk result (Appends (W.contents out.old) (W.contents out.new) (rows_text rows columns output.now)) }
{
    for row in 0..rows {
        let first = row * columns;
        let past = first + columns;
        print_row(out, &output[first..past])?;
    }
    Ok(())
}

fn print_row<W: Write>(out: &mut W, words: &[u64]) -> io::Result<()>
    ensures { OnOk result (Appends (W.contents out.old) (W.contents out.new) (row_text words.now)) }
{
    for (column, word) in words.iter().enumerate() {
        print_word(out, *word, column)?;
    }
    writeln!(out)
}

// A word of a row, with a space before each but the first.
fn print_word<W: Write>(out: &mut W, word: u64, column: usize) -> io::Result<()>
    ensures { OnOk result (Appends (W.contents out.old) (W.contents out.new) (word_text word column)) }
{
    if column > 0 {
        write!(out, " ")?;
    }
    write!(out, "{word}")
}
