// Reads a sheet from standard input, makes one run of it over 1,024 zero words, and writes how it ended and what the globals hold then; or the
// refusal.
#![tactic(auto)]

use field::run_card;
use std::io;

fn main(rt: HostRuntime) -> anyhow::Result<()> {
    run_card(rt.alloc(), &mut rt.reader(), &mut io::writer(&rt))?;
    Ok(())
}
