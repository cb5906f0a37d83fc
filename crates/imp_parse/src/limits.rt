//! The two budgets: nested blocks, and operators of one expression or condition.
ghost use Rattle.std.specs.Prelude.{◌≡◌, ◌<◌, length, IfSome, false};
ghost use Rattle.imp_lex.specs.declared.token.TokenKind.TheVariants as k;
ghost use Rattle.imp_parse.specs.Kinds.{kinds};
ghost use Rattle.imp_parse.specs.Limits.{IsRoom, role_of, next, exceeds, too_deep, place};

use imp_lex::{Mark, Token, TokenKind, Word};

/// How deep blocks nest, and how many operators an outermost expression or condition has, at most.
const MOST: u32 = 32;

/// Where one stands between tokens.
#[derive(Clone, Copy)]
pub(crate) struct Nesting {
    /// How many braces are open.
    pub(crate) depth: u32,
    /// The operators so far of an expression or condition.
    pub(crate) used: u32,
    /// The next `(` belongs to an if, while, call or proc, and is no operator.
    pub(crate) heads: bool,
}

/// What a token is to the budgets.
#[derive(Clone, Copy)]
pub(crate) enum Role {
    Parenthesis,
    Opening,
    Closing,
    Operator,
    Separator,
    Head,
    Plain,
}

impl Nesting {
    /// Where so many braces are open, and no expression has begun.
    pub(crate) fn new(depth: u32) -> Nesting
        ensures is { result ≡ place depth 0 false }
    {
        Nesting {
            depth,
            used: 0,
            heads: false,
        }
    }

    /// Whether a token of this role is too deep here.
    fn exceeds(self, role: Role) -> bool
        ensures is { result ≡ exceeds self role }
    {
        match role {
            Role::Parenthesis => !self.heads && self.used >= MOST,
            Role::Opening => self.depth > MOST,
            Role::Operator => self.used >= MOST,
            Role::Closing => false,
            Role::Separator => false,
            Role::Head => false,
            Role::Plain => false,
        }
    }

    /// Where one stands after a token of this role.
    fn next(self, role: Role) -> Nesting
        requires room { IsRoom self }
        ensures is { result ≡ next self role }
    {
        match role {
            Role::Parenthesis => Nesting {
                depth: self.depth,
                used: if self.heads { 0 } else { self.used + 1 },
                heads: false,
            },
            Role::Opening => Nesting::new(self.depth + 1),
            Role::Closing => Nesting::new(self.depth.saturating_sub(1)),
            Role::Operator => Nesting {
                depth: self.depth,
                used: self.used + 1,
                heads: false,
            },
            Role::Separator => Nesting::new(self.depth),
            Role::Head => Nesting {
                depth: self.depth,
                used: 0,
                heads: true,
            },
            Role::Plain => self,
        }
    }
}

#[tactic(auto, unfolding(crate::specs::Limits::role_of))]
fn role_of(kind: &TokenKind) -> Role
    ensures is { result ≡ role_of kind.now }
{
    match kind {
        TokenKind::Mark(mark) => mark_role(*mark),
        TokenKind::Word(word) => word_role(*word),
        TokenKind::Name(_) => Role::Plain,
        TokenKind::Number(_) => Role::Plain,
    }
}

#[tactic(auto, unfolding(crate::specs::Limits::role_of))]
fn mark_role(mark: Mark) -> Role
    ensures is { result ≡ role_of (k.Mark mark) }
{
    match mark {
        Mark::OpenParenthesis => Role::Parenthesis,
        Mark::OpenBrace => Role::Opening,
        Mark::CloseBrace => Role::Closing,
        Mark::Plus | Mark::Minus | Mark::Star | Mark::Slash | Mark::Percent => Role::Operator,
        Mark::Not | Mark::And | Mark::Or => Role::Operator,
        Mark::EqualTo | Mark::NotEqualTo => Role::Operator,
        Mark::Less | Mark::AtMost | Mark::Greater | Mark::AtLeast => Role::Operator,
        Mark::Semicolon | Mark::Comma | Mark::Equals => Role::Separator,
        Mark::OpenBracket | Mark::CloseBracket => Role::Separator,
        Mark::CloseParenthesis | Mark::Colon | Mark::Dot | Mark::Arrow => Role::Plain,
    }
}

#[tactic(auto, unfolding(crate::specs::Limits::role_of))]
fn word_role(word: Word) -> Role
    ensures is { result ≡ role_of (k.Word word) }
{
    match word {
        Word::If | Word::While | Word::Call | Word::Proc => Role::Head,
        _ => Role::Plain,
    }
}

/// The first token that is too deep, counted from 0.
pub(crate) fn first_too_deep(start: Nesting, tokens: &[Token]) -> Option<usize>
    requires room { IsRoom start }
    ensures is { result ≡ too_deep start (kinds tokens.now) }
    ensures within { IfSome result (λ i. i < length tokens.now) }
{
    let mut place = start;
    'each: for i in 0..tokens.len() {
        let role = role_of(&tokens[i].kind);
        if place.exceeds(role) {
            return Some(i);
        }
        place = place.next(role);
    }
    None
}
