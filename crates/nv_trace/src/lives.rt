//! The lives of a schedule: a crash ends one, and the next begins.
ghost use Rattle.std.specs.Prelude.{◌≡◌, ◌<◌, ◌^◌, ◌++◌, [], length, IfOk, OnOk, OnErr};
ghost use Rattle.nv_trace.specs.Lives.{TracedLives, joined_lives, lives_behind, with_token};

use crate::token::{LineToken, Token};
use nv_plain::NoMemory;
use nv_pmem::Pick;
use std::alloc::Global;
use std::marker::Model;
use std::mem;

/// A life that a crash ends: its tokens, and what the power failure at its end leaves.
#[derive(Drop)]
pub struct EndedLife {
    pub(crate) tokens: Vec<Token>,
    pick: Pick,
}

impl Model for EndedLife {
    ghost use Rattle.nv_trace.specs.Lives.{TracedLife};

    ghost Value = { TracedLife };

    ghost view = { λ life. record { tokens = life.tokens.items; pick = life.pick } };
}

impl EndedLife {
    /// Its tokens, in their order: fewer than 2^63.
    pub fn tokens(&self) -> &[Token]
        ensures tokens { result.now ≡ self.now.tokens }
        ensures few { length result.now < 2 ^ 63 }
    {
        &self.tokens
    }

    /// What the power failure at its end leaves.
    pub fn pick(&self) -> Pick
        ensures { result ≡ self.now.pick }
    {
        self.pick
    }
}

/// The tokens of a schedule, life by life.
#[derive(Drop)]
pub(crate) struct Lives {
    /// Those that crashes end.
    pub(crate) ended: Vec<EndedLife>,
    /// The tokens of the last one.
    pub(crate) tokens: Vec<Token>,
}

impl Model for Lives {
    ghost use Rattle.nv_trace.specs.Lives.{TracedLives};

    ghost Value = { TracedLives };

    ghost view = { λ lives. record { ended = lives.ended.items; tokens = lives.tokens.items } };
}

impl Lives {
    /// One life of no tokens. Takes no memory.
    pub(crate) fn new(alloc: Global) -> Self
        ensures { let none : TracedLives = record { ended = []; tokens = [] } in result ≡ none }
    {
        Lives {
            ended: Vec::new(alloc),
            tokens: Vec::new(alloc),
        }
    }

    /// The lives of some tokens.
    pub(crate) fn of(alloc: Global, tokens: &[LineToken]) -> Result<Self, NoMemory>
        ensures { IfOk result (λ lives. lives ≡ lives_behind (record { ended = []; tokens = [] }) tokens.now) }
    {
        let mut lives = Lives::new(alloc);
        for token in tokens {
            lives.push(alloc, *token)?;
        }
        Ok(lives)
    }

    /// Takes one token more.
    fn push(&mut self, alloc: Global, token: LineToken) -> Result<(), NoMemory>
        ensures { OnOk result (self.new ≡ with_token self.old token) }
    {
        match token {
            LineToken::Inside(token) => self.tokens.push(token)?,
            LineToken::Crash(pick) => {
                let tokens = mem::replace(&mut self.tokens, Vec::new(alloc));
                self.ended.push(EndedLife { tokens, pick })?;
            }
        }
        Ok(())
    }

    /// Takes more lives: what was the last goes on as the first of them. Without memory nothing changes.
    pub(crate) fn append(&mut self, alloc: Global, more: Lives) -> Result<(), NoMemory>
        ensures joined { OnOk result (self.new ≡ joined_lives self.old more.ended more.tokens) }
        ensures unchanged { OnErr result (self.new ≡ self.old) }
    {
        let Lives { mut ended, tokens } = more;
        let Some(first) = ended.first_mut() else {
            self.tokens.extend_from_slice(&tokens)?;
            return Ok(());
        };
        first.tokens = one_behind(alloc, &self.tokens, &first.tokens)?;
        self.ended.append(&mut ended)?;
        self.tokens = tokens;
        Ok(())
    }
}

/// Some tokens, and others behind them.
fn one_behind(alloc: Global, first: &[Token], then: &[Token]) -> Result<Vec<Token>, NoMemory>
    ensures { IfOk result (λ tokens. tokens.items ≡ first.now ++ then.now) }
{
    let mut tokens = Vec::from_slice(alloc, first)?;
    tokens.extend_from_slice(then)?;
    Ok(tokens)
}
