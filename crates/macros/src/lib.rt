// Macro records: their layout, their parameters' names, and where their bodies begin.
#![tactic(auto)]

ghost use Rattle.std.proofs.Props.{props};
ghost use Rattle.std.specs.Prelude.{◌≡◌, true, None, MatchOption, map, ◌+◌, ◌≤◌, ◌<◌, length};
ghost use Rattle.record.specs.Bytes.{all};
ghost use Rattle.record.specs.Records.{whole};
ghost use Rattle.lexer.specs.Tokens.{TokenIs, token_layout};
ghost use Rattle.line_heads.specs.Lines.{record_at, records_of};
ghost use Rattle.macros.specs.Macros.{name_at, behind_name, name_ok, name_places, behind_names, index_of, different, knows, known, macro_ok, body_at, macro_at_ok, macro_layout, head_of};

mod walk;

// The kind of a Parameter token, as a usize: half_at returns a record's kind as one.
pub const PARAMETER: usize = lexer::PARAMETER as usize;

// "up to 8 different parameters"
pub const MOST: usize = 8;

// Returns the place after the name whose length byte is at `at`.
pub fn behind_name(list: &[u8], at: usize) -> usize
    requires { at < length list.now }
    ensures { (result ≡ behind_name list.now at) × (at < result) × (result ≤ at + 256) }
{
    at + 1 + usize::from(list[at])
}

// Whether `at` holds the length byte of a name of 1 to 64 text bytes, and the name follows whole.
fn name_ok(list: &[u8], at: usize) -> bool
    requires { at < 65536 }
    ensures { result ≡ name_ok list.now at }
{
    if list.len() <= at {
        return false;
    }
    let n = usize::from(list[at]);
    1 <= n && n <= 64 && at + 1 + n <= list.len() && record::all_text(&list[at + 1..at + 1 + n])
}

// Whether `count` names stand from `at` on.
fn names_ok(list: &[u8], count: usize, at: usize) -> bool
    requires { (at ≤ length list.now) × (length list.now < 65536) }
    ensures { result ≡ all (name_ok list.now) (name_places count list.now at) }
{
    let mut from = at;
    for _ in 0..count {
        if !name_ok(list, from) {
            return false;
        }
        from = behind_name(list, from);
    }
    true
}

// The names of a macro's parameters: `count` names in the macro's bytes, from `at` on.
#[derive(Clone, Copy)]
pub struct Names<'a> {
    pub list: &'a [u8],
    pub count: usize,
    pub at: usize,
    pub ghost ok: { all (name_ok list.now) (name_places count list.now at) ≡ true } by { Prim.hlevel props },
}

impl<'a> Names<'a> {
    // Returns the name's index among these, or None if it is none of them.
    pub fn index_of(&self, name: &[u8]) -> Option<usize>
        ensures { MatchOption result
            (self.now.count ≤ index_of name.now (map (name_at self.now.list.now) (name_places self.now.count self.now.list.now self.now.at)))
            (λ i. (i ≡ index_of name.now (map (name_at self.now.list.now) (name_places self.now.count self.now.list.now self.now.at))) × (i < self.now.count)) }
    {
        let mut names = *self;
        names.position(|(each, _)| record::same(each, name))
    }

    // Returns the place after the last name.
    pub fn behind(&self) -> usize
        requires { self.now.at ≤ length self.now.list.now }
        ensures { (result ≡ behind_names self.now.count self.now.list.now self.now.at) × (result ≤ length self.now.list.now) }
    {
        let mut end = self.at;
        for (_, rest) in *self {
            end = rest.at;
        }
        end
    }

    // Whether no two names are the same.
    fn differ(&self) -> bool
        ensures { result ≡ different (map (name_at self.now.list.now) (name_places self.now.count self.now.list.now self.now.at)) }
    {
        for (name, rest) in *self {
            if rest.index_of(name).is_some() {
                return false;
            }
        }
        true
    }

    // Whether the token at `at` is not a Parameter, or is one of these.
    fn knows(&self, body: &[u8], at: usize) -> bool
        requires { TokenIs body.now at }
        ensures { result ≡ knows (map (name_at self.now.list.now) (name_places self.now.count self.now.list.now self.now.at)) (record_at body.now at) }
    {
        record::half_at(body, at + 2) != PARAMETER
            || self
                .index_of(&body[at + 12..record::next(body, at)])
                .is_some()
    }

    // Whether each Parameter in `body` is one of these.
    fn know_all(&self, body: &[u8]) -> bool
        requires { token_layout body.now ≡ None }
        ensures { result ≡ known (map (name_at self.now.list.now) (name_places self.now.count self.now.list.now self.now.at)) (records_of body.now) }
    {
        for at in record::places(body) {
            if !self.knows(body, at) {
                return false;
            }
        }
        true
    }
}

// Whether the bytes are a macro's.
fn macro_ok(list: &[u8]) -> bool
    requires { length list.now < 65536 }
    ensures { result ≡ macro_ok list.now }
{
    if !name_ok(list, 0) {
        return false;
    }
    let at = behind_name(list, 0);
    if list.len() <= at {
        return false;
    }
    let count = usize::from(list[at]);
    if count > MOST || !names_ok(list, count, at + 1) {
        return false;
    }
    let names = Names {
        list,
        count,
        at: at + 1,
    };
    if !names.differ() {
        return false;
    }
    let end = names.behind();
    lexer::first_bad_token(&list[end..]).is_none() && names.know_all(&list[end..])
}

// Returns the body of the record at `at`: a macro's bytes.
pub fn body_at(list: &[u8], at: usize) -> &[u8]
    requires { whole list.now at ≡ true }
    ensures { result.now ≡ body_at list.now at }
{
    &list[at + 4..record::next(list, at)]
}

// The record kind.
const MACRO: usize = 40;

// The layout of a macro list: each record is a macro.
struct EachMacro;

impl record::Layout for EachMacro {
    ghost keeps = { λ self list at. macro_at_ok list at };

    #[tactic(auto, using(crate::proofs::LayoutLaws::body_part), unfolding(crate::specs::Macros::macro_at_ok))]
    fn keeps(&self, list: &[u8], at: usize) -> bool {
        record::whole_at(list, at)
            && record::half_at(list, at + 2) == MACRO
            && macro_ok(body_at(list, at))
    }
}

// Returns the place of the first record that is not a macro, or the limit if the list is longer than that.
#[tactic(auto, unfolding(crate::specs::Macros::macro_layout))]
pub fn first_bad_macro(list: &[u8]) -> Option<usize>
    ensures { result ≡ macro_layout list.now }
{
    record::first_bad_within(&EachMacro, list)
}

// A list of macros.
#[derive(Clone, Copy)]
pub struct Macros<'a> {
    pub bytes: &'a [u8],
    pub ghost good: { macro_layout bytes.now ≡ None } by { Prim.hlevel props },
}

// Where in a macro's bytes its parameter names and its body begin, and how many names there are.
#[derive(Clone, Copy)]
pub struct Head {
    pub names: usize,
    pub count: usize,
    pub body: usize,
}

pub fn head_of(list: &[u8]) -> Head
    requires { macro_ok list.now ≡ true }
    ensures { (result ≡ head_of list.now) × (result.body ≤ length list.now) }
{
    let at = behind_name(list, 0);
    let count = usize::from(list[at]);
    let names = Names {
        list,
        count,
        at: at + 1,
    };
    let body = names.behind();
    Head {
        names: at + 1,
        count,
        body,
    }
}
