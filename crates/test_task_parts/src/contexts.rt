//! What a task's calls lead to, and which accesses are watched.

use crate::fault::{Fault, written};
use crate::notation::{Phrase, cut, kind_of, number, push_flag};
use crate::script::{Asked, begin_word, push_blank};
use access_types::Access;
use skip_sampler::Sampler;
use std::alloc::{AllocError, Global};
use task_context::context::{Context, ContextError};

/// What comes of a task's calls, one after the other.
pub fn context(alloc: Global, script: &str) -> Result<String, Fault> {
    let mut came = String::new(alloc);
    let mut context = Context::new();
    for word in script.split(' ') {
        goes_on(&mut came, &mut context, word)?;
    }
    Ok(came)
}

/// What comes at a word of the script.
fn goes_on(came: &mut String, context: &mut Context, word: &str) -> Result<(), Fault> {
    let Asked::Question(phrase) = begin_word(came, word)? else {
        return Err(Fault::NoRow);
    };
    match phrase.name {
        "next" => context.atomic_next(phrase.number(0)?),
        "nest_begin" if context.nest_room() > 0 => context.nest_begin(),
        "disable" if context.disable_room() > 0 => context.disable(),
        "flat_begin" => context.flat_begin(),
        "flat_end" => context.flat_end(),
        _ => return answers(came, context, phrase),
    }
    Ok(())
}

/// What is answered at a word.
fn answers(came: &mut String, context: &mut Context, phrase: Phrase<'_>) -> Result<(), Fault> {
    let pushed = match phrase.name {
        "nest_end" => push_ended(came, context.nest_end()),
        "enable" => push_ended(came, context.enable()),
        "enabled" => push_flag(came, context.enabled()),
        "new" => push_flag(came, *context == Context::new()),
        "default" => push_flag(came, *context == Context::default()),
        "assumed" => push_flag(came, context.counts_as_marked(&access_of(phrase)?, true)),
        "strict" => push_flag(came, context.counts_as_marked(&access_of(phrase)?, false)),
        _ => return Err(Fault::NoRow),
    };
    written(pushed)
}

/// The access of task 0 that a phrase spells: its kind, its address and its size.
fn access_of(phrase: Phrase<'_>) -> Result<Access, Fault> {
    let kind = kind_of(phrase.word(0)?)?;
    let (addr, size) = (phrase.number(1)?, phrase.number(2)?);
    Ok(Access::new(0, 0, addr, size, kind, None)?)
}

/// Writes whether a call ended something.
fn push_ended(came: &mut String, ended: Result<(), ContextError>) -> Result<(), AllocError> {
    came.push_str(if ended.is_ok() { "ok" } else { "unbalanced" })
}

/// Which of so many askings a sampler answers by yes, from 1: `SAMPLER ASKINGS`.
pub fn sampler(alloc: Global, start: &str) -> Result<String, Fault> {
    let (sampler, askings) = cut(start, ' ')?;
    let mut sampler = sampler_of(sampler)?;
    Ok(watched(alloc, &mut sampler, number(askings)?)?)
}

/// The sampler of `fixed(SKIP,SEED)` or `randomized(SKIP,SEED)`.
fn sampler_of(text: &str) -> Result<Sampler, Fault> {
    let phrase = Phrase::read(text);
    let randomize = phrase.name == "randomized";
    Ok(Sampler::new(phrase.number(0)?, randomize, phrase.number(1)?))
}

/// Which of so many askings are answered by yes.
fn watched(alloc: Global, sampler: &mut Sampler, askings: u64) -> Result<String, AllocError> {
    let mut came = String::new(alloc);
    for asking in 1..=askings {
        if sampler.should_watch() {
            push_blank(&mut came)?;
            write!(came, "{asking}")?;
        }
    }
    Ok(came)
}

/// Whether the copy of a sampler is the same as another, after so many askings: `SAMPLER ASKINGS OTHER`.
pub fn samplers(alloc: Global, start: &str) -> Result<String, Fault> {
    let (one, rest) = cut(start, ' ')?;
    let (askings, other) = cut(rest, ' ')?;
    let mut sampler = sampler_of(one)?.copy();
    for _asking in 0..number(askings)? {
        let _watched = sampler.should_watch();
    }
    let mut came = String::new(alloc);
    push_flag(&mut came, sampler == sampler_of(other)?)?;
    Ok(came)
}
