// Reads a text into token records. A first pass over the text finds the answer; a second pass writes, and only if the first refused
// nothing.
#![tactic(auto)]

ghost use Rattle.std.specs.Prelude.{◌≡◌, true, ◌≤◌, ◌<◌, length};
ghost use Rattle.record.specs.Records.{limit};
ghost use Rattle.record.specs.Stores.{append};
ghost use Rattle.text_reader.specs.Reading.{reading, location_of};
ghost use Rattle.text_reader.specs.Outcome.{answer_from, bytes_of, read_text};
ghost use Rattle.text_reader.specs.Outcome.{Accepts, Leaves};

use lexer::Token;
use record::Location;
use refusal::Refusal;
use text_pieces::{Piece, Place, Tables};

// Returns the location of the token that begins at `at`.
fn location_of(source: u32, at: usize) -> Location
    requires { at < limit }
    ensures { result ≡ location_of source at }
{
    Location {
        source,
        index: at as u32,
    }
}

// Makes one pass over the text and returns its answer. If `writes` is set, the text must be accepted, and its records are written.
fn pass(text: &[u8], source: u32, tokens: &mut [u8], writes: bool) -> Result<u32, Refusal>
    requires text_len_bound { (length text.now ≤ limit) × (length tokens.old ≤ limit) }
    requires accepts { Accepts writes (answer_from text.now (length tokens.old) 0 (reading source text.now)) }
    ensures { (result ≡ answer_from text.now (length tokens.old) 0 (reading source text.now))
        × Leaves writes tokens.old tokens.new (bytes_of text.now (reading source text.now)) }
{
    let tables = Tables::new();
    let room = tokens.len();
    let mut at: usize = 0;
    let mut fill: usize = 0;
    while at < text.len() {
        if tables.classes.is_blank(text[at]) {
            at += 1;
        } else {
            match text_pieces::piece_at(&tables, &Place { text, at }) {
                Piece::Blank => {
                    at += 1;
                }
                Piece::Token(kind, size) => {
                    let end = fill + token_bytes::record_size(kind);
                    if room < end {
                        return Err(Refusal::NoTokenSpace(location_of(source, at)));
                    }
                    if writes {
                        let location = location_of(source, at);
                        token_bytes::put_token(tokens, text, fill, Token { location, kind });
                    }
                    fill = end;
                    at += size;
                }
                Piece::BadByte => {
                    return Err(Refusal::BadByte(location_of(source, at)));
                }
                Piece::BadToken => {
                    return Err(Refusal::BadToken(location_of(source, at)));
                }
            }
        }
    }
    Ok(fill as u32)
}

// Writes the text's tokens as records to the start of the token buffer and returns the new fill. A refusal changes no byte.
pub fn read_text(text: &[u8], source: u32, tokens: &mut [u8]) -> Result<u32, Refusal>
    ensures { read_text text.now source tokens.old ≡ (record { answer = result; tokens = tokens.new }) }
{
    if text.len() > record::LIMIT {
        return Err(Refusal::BadLayout(0, record::LIMIT as u32));
    }
    if tokens.len() > record::LIMIT {
        return Err(Refusal::BadLayout(1, record::LIMIT as u32));
    }
    pass(text, source, &mut *tokens, false)?;
    pass(text, source, tokens, true)
}
