// The answer of a linked call: six words, and their bytes in the caller's buffer.
#![tactic(auto)]

ghost use Rattle.std.specs.Prelude.{◌≡◌, ◌*◌, ◌≤◌, pos, length};
ghost use Rattle.record.specs.Stores.{append};
ghost use Rattle.refusal.specs.Numbers.{zero_location, numbered};
ghost use Rattle.linked_answer.specs.Words.{answer_bytes, low_word, answer_words, answered_words, number_of, words_as_bytes, stored_if};

use refusal::Refusal;

// An answer's length: number, source, index, a, b and a last word, four bytes each.
pub const ANSWER_BYTES: usize = 24;

// What a call returns if its answer, or another buffer of fixed length, is too short. No refusal has this number.
pub const TOO_SHORT: u32 = 0xFFFF_FFFF;

// Returns the number's low 32 bits.
// kept: `rem_euclid` before `as`. A cast has to fit its type, so a negative number has no `as u32`.
fn low_word(a: i64) -> u32
    ensures { result ≡ low_word a }
{
    a.rem_euclid(0x1_0000_0000) as u32
}

// Returns an accepted call's words.
pub fn done_words(a: u32, last: u32) -> [u32; 6]
    ensures { result ≡ answer_words 0 zero_location (pos a) 0 last }
{
    [0, 0, 0, a, 0, last]
}

// Returns a refusal's words.
pub fn refusal_words(refusal: Refusal, last: u32) -> [u32; 6]
    ensures { result ≡ answer_words (numbered refusal).number (numbered refusal).location (numbered refusal).a (numbered refusal).b last }
{
    let n = refusal::numbers(refusal);
    let at = n.location;
    [n.number, at.source, at.index, low_word(n.a), n.b, last]
}

// Returns the words of an answer that has one number, as its last word. For a refusal that word is 0.
pub fn answered_words(answer: Result<u32, Refusal>) -> [u32; 6]
    ensures { result ≡ answered_words answer }
{
    match answer {
        Ok(last) => done_words(0, last),
        Err(refusal) => refusal_words(refusal, 0),
    }
}

// Writes the words' bytes at the start of `d`.
pub fn store_words(d: &mut [u8], words: &[u32])
    requires { 4 * length words.now ≤ length d.old }
    ensures { d.new ≡ append d.old 0 (words_as_bytes words.now) }
{
    for (i, &word) in words.iter().enumerate() {
        record::put32(&mut *d, 4 * i, word);
    }
}

// Writes the words' bytes at the start of `d` if the call was accepted. A refused call leaves `d` as it was.
pub fn store_accepted<A, E>(d: &mut [u8], answer: &Result<A, E>, words: &[u32])
    requires { 4 * length words.now ≤ length d.old }
    ensures { d.new ≡ stored_if answer.now words.now d.old }
{
    if answer.is_ok() {
        store_words(d, words);
    }
}

// Writes the bytes of the answer's words at the start of `answer`, and returns the answer's number, the first word.
pub fn store_answer(answer: &mut [u8], words: [u32; 6]) -> u32
    requires { answer_bytes ≤ length answer.old }
    ensures { (result ≡ number_of words) × (answer.new ≡ append answer.old 0 (words_as_bytes words)) }
{
    store_words(answer, &words[..]);
    words[0]
}
