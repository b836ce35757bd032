//! Lines of numbers, texts and lists of numbers, read in one pass with no JSON value made of them. What stands so in most
//! lines; any other line is left to the JSON value. `line_reader.rt` tries it first.
ghost use Rattle.std.specs.Prelude.{◌≡◌, ◌<◌, ◌≤◌, ◌==◌, ℕ, suc, length, slice_index, Some, IfSome, option_map};
ghost use Rattle.json.specs.Json.{value};
ghost use Rattle.serde_json.specs.Data.{unsigned};
ghost use Rattle.serde_json.specs.Read.{number_of, of_json, converted, read};
ghost use Rattle.serde_json.specs.Find.{get, as_str};
ghost use Rattle.street_text.specs.FlatLines.{flat_data, flat_members, flat_object, ReadsItems, ReadsMembers};
ghost use Rattle.street_text.specs.LineCommands.{number_in, list_in, field, value_of};
ghost use Rattle.street_text.specs.ReplyLines.{numbers};

use crate::fault::LineFault;
use crate::lookup::Lookup;
use fast_float::Numeral;
use json::{Reader, Scratch, Token};
use std::alloc::Global;
use street_base::Listing;

/// What stands under a name of a flat line.
#[derive(Drop)]
pub(crate) enum FlatValue<'a> {
    /// A number of digits alone.
    Number(u64),
    /// A text.
    Text(&'a str),
    /// A list of such numbers.
    Numbers(Vec<u64>),
}

/// A name of a flat line, and what stands under it.
#[derive(Drop)]
pub(crate) struct FlatMember<'a> {
    name: &'a str,
    value: FlatValue<'a>,
}

/// What a flat line says: its members in their order, of which the last of a name counts.
#[derive(Drop)]
pub(crate) struct FlatLine<'a> {
    members: Vec<FlatMember<'a>>,
}

impl<'a> FlatValue<'a> {
    /// The number, if it is one; none for a text or a list.
    fn number(&self) -> Option<u64>
        ensures { result ≡ number_in (flat_data self.now) }
    {
        if let FlatValue::Number(number) = self {
            Some(*number)
        } else {
            None
        }
    }

    /// The text, if it is one; none for a number or a list.
    fn text(&self) -> Option<&'a str>
        ensures { option_map (λ s. s.now) result ≡ as_str (flat_data self.now) }
    {
        if let FlatValue::Text(text) = self {
            Some(*text)
        } else {
            None
        }
    }

    /// The list of numbers, if it is one; none for a number or a text.
    fn numbers(&self) -> Option<&[u64]>
        ensures { option_map (λ list. list.now) result ≡ list_in number_in (flat_data self.now) }
    {
        if let FlatValue::Numbers(list) = self {
            Some(list.as_slice())
        } else {
            None
        }
    }
}

/// Whether a text begins with a minus sign.
fn has_minus(text: &[u8]) -> bool
    ensures { result ≡ (slice_index text.now 0 == 45) }
{
    !text.is_empty() && text[0] == b'-'
}

/// The number below 2^64 that a JSON number is written as, if it is of digits alone: no sign, point or exponent.
fn whole_number(text: &str) -> Option<u64>
    ensures { IfSome result (λ n. number_of text.now ≡ Some (unsigned n)) }
{
    let digits = text.as_bytes();
    if has_minus(digits) {
        return None;
    }
    Numeral::scan(digits).to_u64()
}

/// The numbers of a list whose bracket was read, up to its end, which is read too. None where anything else stands in it, and where
/// memory was refused.
fn read_numbers(alloc: Global, reader: &mut Reader<'_>) -> Option<Vec<u64>>
    ensures list { IfSome result (λ list. ReadsItems reader.old (numbers list.items) reader.new) }
    ensures shorter { IfSome result (λ list. length reader.new ≤ length reader.old) }
{
    let mut found = Vec::with_capacity(alloc, 32).ok()?;
    'items: while !reader.take_end_array() {
        let Token::Number(text) = reader.next()? else {
            return None;
        };
        found.push(whole_number(text)?).ok()?;
    }
    Some(found)
}

/// What stands under a name, if it may stand in a flat line and there is memory for it.
fn read_value<'a>(alloc: Global, reader: &mut Reader<'a>) -> Option<FlatValue<'a>>
    ensures value { IfSome result (λ flat. (depth : ℕ) → converted of_json (value (suc depth) reader.old)
        ≡ Some (flat_data flat, reader.new)) }
    ensures shorter { IfSome result (λ flat. length reader.new < length reader.old) }
{
    match reader.next()? {
        Token::Number(text) => Some(FlatValue::Number(whole_number(text)?)),
        Token::String(text) => Some(FlatValue::Text(text)),
        Token::BeginArray => Some(FlatValue::Numbers(read_numbers(alloc, reader)?)),
        _ => None,
    }
}

/// The members of an object whose brace was read, up to its end, which is read too. None where one of them may not stand in a flat
/// line, and where memory was refused.
fn read_members<'a>(alloc: Global, reader: &mut Reader<'a>) -> Option<Vec<FlatMember<'a>>>
    ensures { IfSome result (λ list. ReadsMembers reader.old (flat_members list.items) reader.new) }
{
    let mut found = Vec::with_capacity(alloc, 8).ok()?;
    'members: while let Some(name) = reader.next_key().ok()? {
        let value = read_value(alloc, reader)?;
        found.push(FlatMember { name, value }).ok()?;
    }
    Some(found)
}

/// The flat line of a text, if it is one and there is memory for it. Texts stand in `scratch` where they have escapes.
fn read_text<'a>(alloc: Global, scratch: &'a mut Scratch, text: &'a str) -> Option<FlatLine<'a>>
    ensures { IfSome result (λ line. read text.now ≡ Some (flat_object line)) }
{
    let mut reader = Reader::new(text, scratch).ok()?;
    let Token::BeginObject = reader.next()? else {
        return None;
    };
    let members = read_members(alloc, &mut reader)?;
    if reader.next().is_some() {
        return None;
    }
    Some(FlatLine { members })
}

impl<'a> FlatLine<'a> {
    /// The flat line of these bytes, which have no LF, if they are one, as JSON in UTF-8, and there is memory for it.
    pub(crate) fn of_bytes(
        alloc: Global,
        scratch: &'a mut Scratch,
        bytes: &'a [u8],
    ) -> Option<FlatLine<'a>>
        ensures { IfSome result (λ line. value_of bytes.now ≡ Some (flat_object line)) }
    {
        let text = simdutf8::compat::from_utf8(bytes).ok()?;
        read_text(alloc, scratch, text)
    }

    /// What stands under a name: the last, where it comes more than once.
    fn get(&self, name: &str) -> Option<&FlatValue<'a>>
        ensures { option_map (λ v. flat_data v.now) result ≡ get name.now (flat_object self.now) }
    {
        let mut left = self.members.len();
        while left > 0 {
            left -= 1;
            let member = &self.members[left];
            if member.name == name {
                return Some(&member.value);
            }
        }
        None
    }

    /// The text that stands under a name; none where no text stands there.
    pub(crate) fn text(&self, name: &str) -> Option<&'a str>
        ensures { option_map (λ s. s.now) result ≡ field as_str name.now (flat_object self.now) }
    {
        self.get(name)?.text()
    }
}

impl<'a> Lookup for FlatLine<'a> {
    ghost shows = { flat_object };

    /// The number that stands under a name, of a flat line. As the trait says.
    fn number(&self, name: &str) -> Result<u64, LineFault> {
        let found = self.get(name).ok_or(LineFault::BadCommand)?;
        found.number().ok_or(LineFault::BadCommand)
    }

    /// The number that stands under a name, or `absent`, of a flat line. As the trait says.
    fn number_or(&self, name: &str, absent: u64) -> Result<u64, LineFault> {
        match self.get(name) {
            Some(found) => found.number().ok_or(LineFault::BadCommand),
            None => Ok(absent),
        }
    }

    /// A copy of the list of numbers that stands under a name, of a flat line. As the trait says.
    fn numbers(&self, alloc: Global, name: &str) -> Result<Listing<u64>, LineFault> {
        let found = self.get(name).ok_or(LineFault::BadCommand)?;
        let list = found.numbers().ok_or(LineFault::BadCommand)?;
        // As long as it will be: a journal keeps it.
        match list.to_vec(alloc) {
            Ok(copy) => Ok(Listing::from_vec(copy)),
            Err(_) => Err(LineFault::Starved),
        }
    }
}
