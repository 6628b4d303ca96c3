// Plays one list of requests on a table of words and on a byte image, and prints what both reply and what the memory then holds.
#![tactic(auto)]

mod play;
#[cfg(test)]
mod tests;

use play::{play_both, play_bytes, play_words};
use std::io;
use stores::{Access, NoSuchCell, Reply};

// Each reply behind its place; what a reply prints as is its own.
fn show(rt: &impl Print, replies: &[Result<Reply, NoSuchCell>]) -> io::Result<()> {
    for (at, reply) in replies.iter().enumerate() {
        match reply {
            Ok(reply) => println!(rt; "{at}: {reply}")?,
            Err(refusal) => println!(rt; "{at}: {refusal}")?,
        }
    }
    Ok(())
}

fn main(rt: HostRuntime) -> io::Result<()> {
    let requests = [
        Access::Size,
        Access::Put(0, 1),
        Access::Put(2, 4294967295),
        Access::Put(3, 9),
        Access::Load(0),
        Access::Load(1),
        Access::Load(2),
        Access::Load(3),
    ];
    let mut cells = [0, 16909060, 0];
    let mut replies = [Err(NoSuchCell); 9];
    let count = play_words(&mut cells, &requests, &mut replies);
    println!(rt; "table: {count} replies, cells {cells:?}")?;
    show(&rt, &replies)?;
    let mut bytes = [0, 0, 0, 0, 4, 3, 2, 1, 0, 0, 0, 0, 77, 78];
    let count = play_bytes(&mut bytes, &requests, &mut replies);
    println!(rt; "image: {count} replies, bytes {bytes:?}")?;
    show(&rt, &replies)?;
    let same = play_both(&mut cells, &mut bytes, &requests);
    println!(rt; "same replies: {same}")
}
