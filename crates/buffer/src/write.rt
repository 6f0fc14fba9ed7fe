// What makes, empties and reads a sheet, and the writes that all others are made of.
ghost use Rattle.std.specs.Prelude.{◌≡◌, ◌+◌, ◌^◌, ◌<◌, ◌≤◌, [], ◌∷◌, length, IfOk, vec_len, vec_capacity};
ghost use Rattle.terms.specs.Token.{sizes};
ghost use Rattle.terms.specs.declared.text.Token.TheVariants.{BlockStart, BlockEnd};
ghost use Rattle.rules.specs.Content.{blank, tok, str, raw};
ghost use Rattle.buffer.specs.Lengths.{end_len, Lengthened};
ghost use Rattle.buffer.specs.Contents.{IsSound, Put, lowered};

use crate::sheet::{Full, MOST_BYTES, MOST_TOKENS, Sheet};
use std::alloc::{AllocError, Global};
use terms::text::{Block, Style, Token};

impl Sheet {
    // Limits above MOST_TOKENS and MOST_BYTES are lowered to these.
    pub fn new(heap: Global, tokens: usize, bytes: usize) -> Result<Sheet, AllocError>
        ensures made { IfOk result (λ s. (s.content ≡ blank)
            × (s.limits ≡ lowered (record { tokens = tokens; bytes = bytes }))) }
        ensures sound { IfOk result (λ s. IsSound s) }
    {
        let max_tokens = tokens.min(MOST_TOKENS);
        let max_bytes = bytes.min(MOST_BYTES);
        let tokens = Vec::with_capacity(heap, max_tokens)?;
        let bytes = Vec::with_capacity(heap, max_bytes)?;
        Ok(Sheet {
            tokens,
            bytes,
            max_tokens,
            max_bytes,
        })
    }

    pub fn clear(&mut self)
        ensures after { self.new.content ≡ blank }
        ensures same { self.new.limits ≡ self.old.limits }
        ensures sound { IsSound self.new }
    {
        self.tokens.clear();
        self.bytes.clear();
    }

    pub fn tokens(&self) -> &[Token]
        ensures value { result.now ≡ self.now.content.tokens }
        ensures sound { IsSound self.now }
    {
        self.tokens.as_slice()
    }

    pub fn bytes(&self) -> &[u8]
        ensures value { result.now ≡ self.now.content.bytes }
        ensures sound { IsSound self.now }
    {
        self.bytes.as_slice()
    }

    // A start and an end are one write, under the two names that their callers mean.
    pub fn block_start(&mut self, b: Block) -> Result<(), Full>
        ensures put { Put self.old (tok (BlockStart b)) self.new result }
        ensures sound { IsSound self.new }
    {
        self.push(Token::BlockStart(b))
    }

    pub fn block_end(&mut self, b: Block) -> Result<(), Full>
        ensures put { Put self.old (tok (BlockEnd b)) self.new result }
        ensures sound { IsSound self.new }
    {
        self.push(Token::BlockEnd(b))
    }

    // Writes a token that has no bytes. `lengthen` ends likewise, and has only the tokens.
    fn push(&mut self, edge: Token) -> Result<(), Full>
        requires { sizes (edge ∷ []) ≡ 0 }
        ensures put { Put self.old (tok edge) self.new result }
        ensures sound { IsSound self.new }
    {
        if self.tokens.len() == self.max_tokens {
            return Err(Full);
        }
        self.tokens.push_reserved(edge);
        Ok(())
    }

    pub fn write_str(&mut self, s: &[u8], style: Style) -> Result<(), Full>
        ensures put { Put self.old (str style s.now) self.new result }
        ensures sound { IsSound self.new }
    {
        if s.len() > self.max_bytes - self.bytes.len() {
            return Err(Full);
        }
        let most = self.max_tokens;
        // A sheet has no more than 32768 bytes, so the length fits a token's.
        lengthen(&mut self.tokens, most, style, s.len() as u16)?;
        // There is memory for max_bytes since new, so this does not fail.
        let _ = self.bytes.extend_from_slice(s);
        Ok(())
    }

    // Writes tokens and bytes as they are.
    pub(crate) fn raw(&mut self, tokens: &[Token], bytes: &[u8]) -> Result<(), Full>
        requires { sizes tokens.now ≡ length bytes.now }
        ensures put { Put self.old (raw (record { tokens = tokens.now; bytes = bytes.now }))
            self.new result }
        ensures sound { IsSound self.new }
    {
        if tokens.len() > self.max_tokens - self.tokens.len() {
            return Err(Full);
        }
        if bytes.len() > self.max_bytes - self.bytes.len() {
            return Err(Full);
        }
        // There is memory for both since new, so neither fails.
        let _ = self.tokens.extend_from_slice(tokens);
        let _ = self.bytes.extend_from_slice(bytes);
        Ok(())
    }
}

// Adds n to the length of the last token, where it is a text in that style, or else a new token.
fn lengthen(tokens: &mut Vec<Token>, most: usize, style: Style, n: u16) -> Result<(), Full>
    requires n_bound { sizes tokens.old.items + n < 2 ^ 16 }
    requires tokens_len_bound { vec_len tokens.old ≤ most }
    requires most_bound { most ≤ vec_capacity tokens.old }
    ensures { Lengthened tokens.old most style n tokens.new result }
{
    match last_len(tokens, style) {
        Some(bytes) => {
            // By its place: the check does not cover a write through what a match on `last_mut` lends.
            let last = tokens.len() - 1;
            tokens[last] = Token::Text {
                style,
                bytes: bytes + n,
            };
        }
        None => {
            if tokens.len() == most {
                return Err(Full);
            }
            tokens.push_reserved(Token::Text { style, bytes: n });
        }
    }
    Ok(())
}

// The length of the last token, where it is a text in that style.
fn last_len(tokens: &[Token], style: Style) -> Option<u16>
    ensures { result ≡ end_len tokens.now style }
{
    tokens.last()?.len_in(style)
}
