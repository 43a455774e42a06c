//! The first token of a line that may not stand there in JSON.
use crate::token::{Kind, Token, TokenKind, token_at};
use sgt_model::NoMemory;
use std::alloc::Global;

/// The maximum nesting of lists and objects.
const DEEPEST: usize = 127;

/// What may come next.
#[derive(Clone, Copy)]
pub(crate) enum Next {
    /// The value that a line is.
    Line,
    /// The first item of a list, or its end.
    FirstItem,
    /// An item of a list, after a comma.
    Item,
    /// The name of the first member of an object, or its end.
    FirstName,
    /// The name of a member, after a comma.
    Name,
    /// The colon after a name.
    Colon,
    /// The value of a member, after its colon.
    Value,
    /// A comma, or the end of what is open; if nothing is, the end of the line.
    End,
}

/// A list or an object that is open.
#[derive(Clone, Copy)]
pub(crate) struct Open {
    pub kind: Kind,
    /// The index of its bracket.
    pub begin: usize,
    /// The newest name in an object, with its quotes.
    pub name: Option<Token>,
    /// The newest value in it that has ended. A list or an object is the token that opens it, up to its end.
    pub value: Option<Token>,
}

/// A text in JSON up to a token.
#[derive(Drop)]
pub(crate) struct Grammar {
    pub next: Next,
    /// What is open, the innermost last.
    pub open: Vec<Open>,
    /// The newest text, with its quotes.
    pub text: Option<Token>,
}

/// The first token that may not stand where it does, and the text before it.
#[derive(Drop)]
pub(crate) struct Wrong {
    pub grammar: Grammar,
    pub token: Token,
}

/// The first token of a line that may not stand there, or the line's end if that comes too early. None if each may
/// stand there.
pub(crate) fn first_wrong(alloc: Global, text: &str) -> Result<Option<Wrong>, NoMemory> {
    let bytes = text.as_bytes();
    let mut grammar = Grammar {
        next: Next::Line,
        open: Vec::new(alloc),
        text: None,
    };
    let mut end = 0;
    for at in 0..bytes.len() {
        if at < end || matches!(bytes[at], b' ' | b'\t' | b'\r' | b'\n') {
            continue;
        }
        let token = token_at(alloc, text, at)?;
        if !grammar.take(token)? {
            return Ok(Some(Wrong { grammar, token }));
        }
        end = token.end;
    }
    if grammar.open.is_empty() && matches!(grammar.next, Next::End) {
        return Ok(None);
    }
    let token = Token {
        kind: TokenKind::End,
        at: bytes.len(),
        end: bytes.len(),
    };
    Ok(Some(Wrong { grammar, token }))
}

impl Grammar {
    // Takes the next token, and returns whether it may stand there.
    fn take(&mut self, token: Token) -> Result<bool, NoMemory> {
        let Some(next) = self.after(token.kind) else {
            return Ok(false);
        };
        let mut value = token;
        match token.kind {
            TokenKind::Opens(kind) => self.open.push(Open {
                kind,
                begin: token.at,
                name: None,
                value: None,
            })?,
            TokenKind::Closes(kind) => if let Some(top) = self.open.pop() {
                value.kind = TokenKind::Opens(kind);
                value.at = top.begin;
            },
            TokenKind::Text => self.text = Some(token),
            _ => (),
        }
        if let Some(top) = self.open.last_mut() {
            match next {
                Next::Colon => top.name = Some(token),
                Next::End => top.value = Some(value),
                _ => (),
            }
        }
        self.next = next;
        Ok(true)
    }

    // What may come after such a token. None if it may not stand here.
    fn after(&self, kind: TokenKind) -> Option<Next> {
        let innermost = self.open.last().map(|top| top.kind);
        match (self.next, kind) {
            (Next::Colon, TokenKind::Colon) => Some(Next::Value),
            (Next::FirstName | Next::Name, TokenKind::Text) => Some(Next::Colon),
            (Next::End, TokenKind::Comma) => match innermost? {
                Kind::List => Some(Next::Item),
                Kind::Object => Some(Next::Name),
            },
            (Next::FirstItem | Next::FirstName | Next::End, TokenKind::Closes(kind))
                if innermost == Some(kind) => Some(Next::End),
            (_, TokenKind::Opens(Kind::List)) if self.may_open() => Some(Next::FirstItem),
            (_, TokenKind::Opens(Kind::Object)) if self.may_open() => Some(Next::FirstName),
            (_, TokenKind::Text | TokenKind::Plain) if self.takes_value() => Some(Next::End),
            _ => None,
        }
    }

    // Whether a value may come.
    fn takes_value(&self) -> bool {
        matches!(
            self.next,
            Next::Line | Next::FirstItem | Next::Item | Next::Value
        )
    }

    // Whether a list or an object may come.
    fn may_open(&self) -> bool {
        self.takes_value() && self.open.len() < DEEPEST
    }
}

impl Wrong {
    /// Whether a list or an object begins here that is too deep.
    pub(crate) fn is_too_deep(&self) -> bool {
        matches!(self.token.kind, TokenKind::Opens(_)) && self.grammar.takes_value()
    }

    /// The newest text, if it ends right before a word or a number here.
    pub(crate) fn text_before(&self) -> Option<Token> {
        let is_word = matches!(
            self.token.kind,
            TokenKind::Word | TokenKind::Plain | TokenKind::BadNumber
        );
        self.grammar
            .text
            .filter(|text| is_word && text.end == self.token.at)
    }
}
