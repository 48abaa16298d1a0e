// Fits fixed jobs whose trusts may surprise, and their plain neighbours, and prints each as `gwrprint` prints a job: the line of the
// fit, and a line for each row. rust/oracle/src/trusts.rs holds what is stored of it against 000.
// Printed through the handle: `text` writes to bytes, so that a proof can speak of them.
#![tactic(auto)]

ghost use Rattle.std.specs.Prelude.{◌≤◌, ◌<◌};

use criterion::Summary;
use gwr::Fit;
use kernel::GwrKernel;
use refusal::Refusal;
use setup::{Columns, GwrBandwidth, GwrOptions};
use std::io;

// A space and the bits of a real.
fn print_real(rt: &impl Print, v: f64) -> io::Result<()> {
    print!(rt; " {:016X}", wire::bits_of(v))
}

// The line of a fit: no refusal, bandwidth, AICc, solves.
fn print_summary(rt: &impl Print, s: Summary) -> io::Result<()> {
    print!(rt; "fit 0")?;
    print_real(rt, s.bandwidth)?;
    print_real(rt, s.aicc)?;
    println!(rt; " {}", s.solves)
}

// The lines of whole rows, `width` numbers each.
fn print_rows(rt: &impl Print, rows: &[f64], width: usize) -> io::Result<()>
    requires { 0 < width }
{
    for (i, row) in rows.chunks_exact(width).enumerate() {
        print!(rt; "row {i}")?;
        for v in row {
            print_real(rt, *v)?;
        }
        println!(rt)?;
    }
    Ok(())
}

// The line of a fit that is refused: the number alone.
fn print_refused(rt: &impl Print, refusal: Refusal) -> io::Result<()> {
    println!(rt; "fit {}", refusal.number())
}

// What a fit answered, with `rows` as its output.
fn print_answer(
    rt: &impl Print,
    fit: Result<Fit, Refusal>,
    rows: &[f64],
    width: usize,
) -> io::Result<()>
    requires { 0 < width }
{
    match fit {
        Err(r) => print_refused(rt, r),
        Ok(fit) => match fit.finish.refusal {
            Some(r) => print_refused(rt, r),
            None => {
                print_summary(rt, fit.finish.summary)?;
                print_rows(rt, rows, width)
            }
        },
    }
}

// A job's name and its fit, with the parameters of `gwr_fit`; `out` has just the room that the rows need, or less.
fn show(
    rt: &impl Print,
    name: &str,
    columns: &Columns<'_>,
    p: usize,
    options: GwrOptions,
    out: &mut [f64],
) -> io::Result<()>
    requires { p ≤ 7 }
{
    println!(rt; "{name}:")?;
    let fit = gwr::gwr_fit(columns, p, options, &mut *out);
    print_answer(rt, fit, &*out, p + 4)
}

fn by_distance(kernel: GwrKernel, d: f64) -> GwrOptions {
    GwrOptions::unguarded(kernel, GwrBandwidth::Fixed(d), false)
}

fn by_count(kernel: GwrKernel, k: usize, searched: bool) -> GwrOptions {
    GwrOptions::unguarded(kernel, GwrBandwidth::AdaptiveKnn(k), searched)
}

// Three at one place. The leverage of the first is infinite before its own weight is multiplied in.
fn three(rt: &impl Print, name: &str, first: f64) -> io::Result<()> {
    let columns = Columns {
        coords: &[0.0; 6],
        predictors: &[1e200, 0.0, 1.0],
        responses: &[0.0; 3],
        trusts: &[first, 1.0, 1.0],
    };
    let options = by_distance(GwrKernel::Gaussian, 1.0);
    let mut out = [0.0; 15];
    show(rt, name, &columns, 1, options, &mut out)
}

// Two at one place, the fewest of which that is so. Only the second weighs; that the square of its predictor is rounded makes a
// second pivot.
fn two(rt: &impl Print, name: &str, first: f64) -> io::Result<()> {
    let columns = Columns {
        coords: &[0.0; 4],
        predictors: &[1e200, 94906267.0],
        responses: &[0.0; 2],
        trusts: &[first, 1.0],
    };
    let options = by_distance(GwrKernel::Gaussian, 1.0);
    let mut out = [0.0; 10];
    show(rt, name, &columns, 1, options, &mut out)
}

// Two by Bisquare with one neighbour, which is as far away as the bandwidth and so weighs nothing.
fn neighbours(rt: &impl Print, name: &str, first: f64, second: f64) -> io::Result<()> {
    let columns = Columns {
        coords: &[0.0, 0.0, 1.0, 0.0],
        predictors: &[],
        responses: &[3.0, 4.0],
        trusts: &[first, second],
    };
    let options = by_count(GwrKernel::Bisquare, 1, false);
    let mut out = [0.0; 8];
    show(rt, name, &columns, 0, options, &mut out)
}

// One alone, whose trust is its system's only pivot, with room for so many of its row's four numbers.
fn alone(rt: &impl Print, name: &str, trust: f64, room: usize) -> io::Result<()>
    requires { room ≤ 4 }
{
    let columns = Columns {
        coords: &[0.0, 0.0],
        predictors: &[],
        responses: &[5.0],
        trusts: &[trust],
    };
    let options = by_distance(GwrKernel::Gaussian, 1.0);
    let mut out = [0.0; 4];
    show(rt, name, &columns, 0, options, &mut out[..room])
}

// Four with one predictor.
fn four(rt: &impl Print, name: &str, trust: &[f64], options: GwrOptions) -> io::Result<()> {
    let columns = Columns {
        coords: &[0.0, 0.0, 1.0, 0.0, 0.0, 2.0, 3.0, 3.0],
        predictors: &[1.0, 2.0, 4.0, 7.0],
        responses: &[2.0, 3.0, 5.0, 9.0],
        trusts: trust,
    };
    let mut out = [0.0; 20];
    show(rt, name, &columns, 1, options, &mut out)
}

fn surprises(rt: &impl Print) -> io::Result<()> {
    three(rt, "zero times infinity", 0.0)?;
    three(rt, "the same, fully trusted", 1.0)?;
    two(rt, "zero times infinity, the fewest", 0.0)?;
    two(rt, "the fewest, fully trusted", 1.0)?;
    neighbours(rt, "a neighbour at the bandwidth, trusts 0 and 1", 0.0, 1.0)?;
    neighbours(rt, "a neighbour at the bandwidth, trusts 1 and 0", 1.0, 0.0)?;
    neighbours(rt, "a neighbour at the bandwidth, trusts 1 and 1", 1.0, 1.0)
}

fn alone_each(rt: &impl Print) -> io::Result<()> {
    alone(rt, "alone, trust 1e-13", 1e-13, 4)?;
    alone(rt, "alone, trust 1e-11", 1e-11, 4)?;
    alone(rt, "alone, trust 0", 0.0, 4)?;
    alone(rt, "alone, trust -0", -0.0, 4)?;
    alone(rt, "alone, trust NaN", f64::NAN, 4)?;
    alone(rt, "alone, trust -1e-300", -1e-300, 4)?;
    alone(rt, "alone, trust 1.0000000000000002", 1.0000000000000002, 4)?;
    alone(rt, "alone, trust 2, the output too short", 2.0, 3)?;
    alone(rt, "alone, trust 1, the output too short", 1.0, 3)
}

fn four_each(rt: &impl Print) -> io::Result<()> {
    let trust = [0.5, 1.0, 0.25, 0.75];
    let distance = by_distance(GwrKernel::Gaussian, 2.0);
    let count = by_count(GwrKernel::Exponential, 2, true);
    four(rt, "four by a distance", &trust, distance)?;
    four(rt, "four by a count, searched", &trust, count)?;
    four(
        rt,
        "four by a distance, one trust too few",
        &trust[..3],
        distance,
    )
}

fn main(rt: HostRuntime) -> io::Result<()> {
    surprises(&rt)?;
    alone_each(&rt)?;
    four_each(&rt)
}
