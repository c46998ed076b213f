//! The calls of a litmus text that take locks. Which token begins one is said by no definition: a place is only told.

ghost use Rattle.std.specs.Prelude.{◌≤◌, IfSome, length};

use litmus_lex::{CallWord, Sign, Spot, Token, Word, read_head, tokens, word_of};
use std::alloc::{AllocError, Global};

/// A call that takes a lock.
#[derive(Clone, Copy)]
pub struct LockCall<'a> {
    /// The number of its task.
    pub task: usize,
    /// The name of the lock.
    pub name: &'a [u8],
    /// Where it begins: how many bytes stand before it.
    pub at: usize,
}

/// How many blocks were opened outside others, and how many are open.
#[derive(Clone, Copy)]
struct Blocks {
    begun: usize,
    open: usize,
}

impl Blocks {
    /// Behind a token.
    fn after(self, token: Token<'_>) -> Blocks {
        match token {
            Token::Sign(Sign::OpenBrace) => Blocks {
                begun: self.begun.saturating_add(usize::from(self.open == 0)),
                open: self.open.saturating_add(1),
            },
            Token::Sign(Sign::CloseBrace) => Blocks {
                begun: self.begun,
                open: self.open.saturating_sub(1),
            },
            _ => self,
        }
    }

    /// The task in whose body they are. The first block is that of the initialization.
    fn task(self) -> Option<usize> {
        if self.open == 0 {
            return None;
        }
        self.begun.checked_sub(2)
    }
}

/// The word is that of the call that takes a lock.
fn is_lock(word: &[u8]) -> bool {
    matches!(word_of(word), Some(Word::Call(CallWord::Lock)))
}

/// The call that takes a lock with which tokens begin, behind these blocks, if they begin with one.
fn call_at<'a>(spots: &[Spot<'a>], blocks: Blocks) -> Option<LockCall<'a>> {
    let [call, open, lock, ..] = spots else {
        return None;
    };
    match (blocks.task(), call.token, open.token, lock.token) {
        (Some(task), Token::Name(word), Token::Sign(Sign::OpenParen), Token::Name(name))
            if is_lock(word) => Some(LockCall {
            task,
            name,
            at: call.at,
        }),
        _ => None,
    }
}

/// The calls that take locks, of tokens.
fn calls_of<'a>(alloc: Global, spots: &[Spot<'a>]) -> Result<Vec<LockCall<'a>>, AllocError> {
    let mut calls = Vec::new(alloc);
    let mut blocks = Blocks { begun: 0, open: 0 };
    for (at, spot) in spots.iter().enumerate() {
        if let Some(call) = call_at(&spots[at..], blocks) {
            calls.push(call)?;
        }
        blocks = blocks.after(spot.token);
    }
    Ok(calls)
}

/// The calls of a text that take locks, in their order. A text without a head has none.
pub fn lock_calls(alloc: Global, text: &[u8]) -> Result<Vec<LockCall<'_>>, AllocError> {
    let Ok(head) = read_head(text) else {
        return Ok(Vec::new(alloc));
    };
    let spots = tokens(alloc, text, head.after)?;
    calls_of(alloc, &spots)
}

/// The call is that of this task, and takes the lock of this name.
fn is_call_of(call: &LockCall<'_>, task: usize, name: &str) -> bool {
    call.task == task && call.name == name.as_bytes()
}

/// Where a task calls for a lock of this name, if it does so at one place of the text.
pub fn place_of_call(text: &[u8], calls: &[LockCall<'_>], task: usize, name: &str) -> Option<usize>
    ensures within { IfSome result (λ at. at ≤ length text.now) }
{
    let mut found = None;
    for call in calls {
        if is_call_of(call, task, name) {
            if found.is_some() {
                return None;
            }
            found = Some(call.at);
        }
    }
    match found {
        Some(at) if at <= text.len() => Some(at),
        _ => None,
    }
}
