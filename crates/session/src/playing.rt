// Lists of calls: one after the other is asked of a caller's place, over one store.
ghost use Rattle.std.specs.Prelude.{◌≡◌, min, length, take, drop};
ghost use Rattle.acceptance.specs.Scripts.{Accepted};
ghost use Rattle.calls.specs.Laws.{BegunAll, OneReply, StoreInRun, TwoSessions};
ghost use Rattle.faults.specs.Known.{ClosingsKnown};
ghost use Rattle.session.specs.Promise.{AlikeStores, Keeps, Plays, to_begin, to_close, to_grant, to_open, to_post, to_reading};

use crate::runs::{Closing, RunState};
use crate::sessions::Session;
use acceptance::scripts::Script;
use calls::asked::{Answer, Call};
use calls::causes::SessionCause;
use kinds::NumberKind;
use stores::Store;
use text::refusals::Refusal;

/// What a call gets: an answer, or a refusal.
pub type Reply = Result<Answer, Refusal<SessionCause>>;

fn to_open(answer: Result<(), Refusal<SessionCause>>) -> Reply
    ensures { result ≡ to_open answer }
{
    answer?;
    Ok(Answer::Opened)
}

fn to_post(answer: Result<(), Refusal<SessionCause>>) -> Reply
    ensures { result ≡ to_post answer }
{
    answer?;
    Ok(Answer::Posted)
}

fn to_reading(answer: Result<u32, Refusal<SessionCause>>) -> Reply
    ensures { result ≡ to_reading answer }
{
    Ok(Answer::Word(answer?))
}

fn to_begin(answer: Result<u32, Refusal<SessionCause>>) -> Reply
    ensures { result ≡ to_begin answer }
{
    Ok(Answer::Began { ticket: answer? })
}

fn to_grant(answer: Result<RunState, Refusal<SessionCause>>) -> Reply
    ensures { result ≡ to_grant answer }
{
    match answer? {
        RunState::Running => Ok(Answer::Running),
        RunState::Over => Ok(Answer::Over),
    }
}

fn to_close(answer: Result<Closing, Refusal<SessionCause>>) -> Reply
    ensures { result ≡ to_close answer }
{
    let Closing { ending, count } = answer?;
    Ok(Answer::Closed { ending, count })
}

impl<'s, 'r, K: NumberKind> Session<'s, 'r, K> {
    // Makes one call; a ticket is named by its run's number. Private, since a program outside has to hold its tickets.
    fn make<S: Store>(&mut self, script: &'s Script<'r, K>, store: &mut S, call: Call) -> Reply
        ensures promise { Keeps K.kind script.now call self.old (S.Store.words store.old) result self.new (S.Store.words store.new) }
        ensures lent { S.Store.lent store.new ≡ S.Store.lent store.old }
    {
        match call {
            Call::Open => to_open(self.open(script, store)),
            Call::Post { global, word } => to_post(self.post(store, global, word)),
            Call::Reading { global } => to_reading(self.reading(store, global)),
            Call::Begin => to_begin(self.begin_run()),
            Call::Grant { ticket, count } => to_grant(self.grant_run(store, ticket, count)),
            Call::Close { ticket } => to_close(self.close_run(ticket)),
        }
    }
}

/// Makes the calls in order in a place that holds no session at first, as many as there are places for replies, and tells how many that were. Each opening
/// is of the script, and each call is handed the store.
///
/// The promise is told of the calls and the replies by history and the copy rule; and the store then holds exactly the words that they tell. The clauses
/// below it are laws of what is due: there is one list of replies, a run that goes on has begun all that it was
/// granted, in a run the store holds what the copy rule's closing has with that, and no ending is lost where it is told.
pub fn play<K: NumberKind, S: Store>(
    script: &Script<K>,
    store: &mut S,
    calls: &[Call],
    replies: &mut [Reply],
) -> usize
    ensures accepted { Accepted K.kind.least K.kind.most script.now }
    ensures count { result ≡ min (length calls.now) (length replies.old) }
    ensures promise { Plays K.kind script.now (S.Store.words store.old) (take result calls.now) (take result replies.new) (S.Store.words store.new) }
    ensures one_reply { OneReply }
    ensures begun_all { BegunAll }
    ensures store_in_run { StoreInRun }
    ensures endings { ClosingsKnown }
    ensures rest { drop result replies.new ≡ drop result replies.old }
    ensures lent { S.Store.lent store.new ≡ S.Store.lent store.old }
{
    // which says that they are accepted
    let _records = script.records();
    let mut session = Session::unopened();
    let made = calls.len().min(replies.len());
    for (i, call) in calls[..made].iter().enumerate() {
        replies[i] = session.make(script, store, *call);
    }
    made
}

/// Makes the same calls in two places of their own, over two stores of whatever makes, as many as there are places for the replies of both, and tells how
/// many that were. So two units can be held to each other.
///
/// Each place and store is as after `play`. Over stores of equal size with equal global stores the replies are equal; and by the law below it, replies that are equal
/// to an opening and to whatever readings after it tell that the global stores were.
pub fn play_both<K: NumberKind, S: Store, T: Store>(
    script: &Script<K>,
    first: &mut S,
    second: &mut T,
    calls: &[Call],
    first_replies: &mut [Reply],
    second_replies: &mut [Reply],
) -> usize
    ensures accepted { Accepted K.kind.least K.kind.most script.now }
    ensures count { result ≡ min (length calls.now) (min (length first_replies.old) (length second_replies.old)) }
    ensures first_promise { Plays K.kind script.now (S.Store.words first.old) (take result calls.now) (take result first_replies.new) (S.Store.words first.new) }
    ensures second_promise { Plays K.kind script.now (T.Store.words second.old) (take result calls.now) (take result second_replies.new) (T.Store.words second.new) }

    ensures alike { AlikeStores script.now (S.Store.words first.old) (T.Store.words second.old) → take result first_replies.new ≡ take result second_replies.new }
    ensures two_sessions { TwoSessions }

    ensures first_rest { drop result first_replies.new ≡ drop result first_replies.old }
    ensures second_rest { drop result second_replies.new ≡ drop result second_replies.old }
    ensures first_lent { S.Store.lent first.new ≡ S.Store.lent first.old }
    ensures second_lent { T.Store.lent second.new ≡ T.Store.lent second.old }
{
    let most = first_replies.len().min(second_replies.len());
    let calls = &calls[..calls.len().min(most)];
    play(script, first, calls, first_replies);
    play(script, second, calls, second_replies)
}
