// Requests to a store as values, so that any list of them can be played on any store.
ghost use Rattle.std.specs.Prelude.{◌≡◌, Some, min, true, ◌++◌, length, take, drop, Decides};
ghost use Rattle.stores.specs.Accesses.{reply, after, replies as replies_of, after_all};
ghost use Rattle.stores.specs.Texts.{reply_text};

use crate::store::{NoSuchCell, Store};
use std::fmt;

// What can be asked of a store.
#[derive(Clone, Copy, PartialEq, Eq, Debug)]
pub enum Access {
    Size,
    Load(usize),
    Put(usize, u32),
}

// What a store replies where it does not refuse: its size, a cell's word, or that a put is done.
#[derive(Clone, Copy, PartialEq, Eq, Debug)]
pub enum Reply {
    Size(usize),
    Word(u32),
    Done,
}

impl fmt::Display for Reply {
    ghost output = { λ reply. Some (reply_text reply) };

    fn fmt<W: fmt::Write>(&self, f: &mut fmt::Formatter<W>) -> fmt::Result {
        match self {
            Reply::Size(size) => write!(f, "size {size}"),
            Reply::Word(word) => write!(f, "word {word}"),
            Reply::Done => write!(f, "done"),
        }
    }
}

// Makes one request.
pub fn answer<S: Store>(store: &mut S, request: Access) -> Result<Reply, NoSuchCell>
    ensures reply { result ≡ reply (S.Store.words store.old) request }
    ensures words { S.Store.words store.new ≡ after (S.Store.words store.old) request }
    ensures lent { S.Store.lent store.new ≡ S.Store.lent store.old }
{
    match request {
        Access::Size => Ok(Reply::Size(store.size())),
        Access::Load(at) => {
            let word = store.load(at).ok_or(NoSuchCell)?;
            Ok(Reply::Word(word))
        }
        Access::Put(at, word) => {
            store.put(at, word)?;
            Ok(Reply::Done)
        }
    }
}

// Makes the requests in order, as many as there are places for replies, and tells how many that were.
pub fn serve<S: Store>(
    store: &mut S,
    requests: &[Access],
    replies: &mut [Result<Reply, NoSuchCell>],
) -> usize
    ensures count { result ≡ min (length requests.now) (length replies.old) }
    ensures replies { replies.new ≡ replies_of (S.Store.words store.old) (take result requests.now) ++ drop result replies.old }
    ensures words { S.Store.words store.new ≡ after_all (S.Store.words store.old) (take result requests.now) }
    ensures lent { S.Store.lent store.new ≡ S.Store.lent store.old }
{
    let count = requests.len().min(replies.len());
    // The replies by their places: tried, after a `zip` with `iter_mut` a proof no longer knows what the slice holds.
    for (i, request) in requests[..count].iter().enumerate() {
        replies[i] = answer(store, *request);
    }
    count
}

// Makes the same requests of two stores, of any makes, and tells whether all replies were the same. Of stores with equal words
// they are.
pub fn same_answers<A: Store, B: Store>(first: &mut A, second: &mut B, requests: &[Access]) -> bool
    ensures alike { A.Store.words first.old ≡ B.Store.words second.old → result ≡ true }
    ensures told { Decides result (replies_of (A.Store.words first.old) requests.now ≡ replies_of (B.Store.words second.old) requests.now) }
    ensures first_words { A.Store.words first.new ≡ after_all (A.Store.words first.old) requests.now }
    ensures first_lent { A.Store.lent first.new ≡ A.Store.lent first.old }
    ensures second_words { B.Store.words second.new ≡ after_all (B.Store.words second.old) requests.now }
    ensures second_lent { B.Store.lent second.new ≡ B.Store.lent second.old }
{
    let mut same = true;
    for request in requests {
        let from_first = answer(first, *request);
        let from_second = answer(second, *request);
        same &= is_same(from_first, from_second);
    }
    same
}

// Whether two replies are the same. A function apart, since the same comparison within a loop takes twice the time.
fn is_same(one: Result<Reply, NoSuchCell>, other: Result<Reply, NoSuchCell>) -> bool
    ensures { Decides result (one ≡ other) }
{
    one == other
}
