// The far times as the code has them, to be held to the equation: a line for each distance, 425 to 1000 ft, with its fifteen times in tenths of a second.
#![tactic(auto)]

use std::io;

fn print_row(rt: &impl Print, row: usize) -> io::Result<()> {
    for col in 0..15 {
        print!(rt; " {}", far_columns::entry(col, row).0)?;
    }
    println!(rt)
}

fn print_rows(rt: &impl Print) -> io::Result<()> {
    for row in 0..24 {
        print!(rt; "{}", 425 + 25 * row)?;
        print_row(rt, row)?;
    }
    Ok(())
}

fn main(rt: HostRuntime) -> io::Result<()> {
    print_rows(&rt)
}
