//! Values of JSON, as a reader hands out their tokens. Each function here takes one value whole, or fails
//! where none stands: then the bytes are no JSON text.

ghost use Rattle.std.specs.Prelude.{◌≡◌, ◌<◌, ◌≤◌, ◌-◌, ◌∷◌, length, Some, None, IfOk, OnOk, OnErr, MatchOption};
ghost use Rattle.std.specs.Bool.{MatchBool};
ghost use Rattle.json.specs.Token.{begin_array, begin_object};
ghost use Rattle.json.specs.Reads.{token_of};
ghost use Rattle.serde_json.specs.Data.{no_members};
ghost use Rattle.serde_json.specs.Find.{as_object};
ghost use Rattle.rc_reading.specs.Said.{said_of, both_of, shown, begins_object};
ghost use Rattle.rc_reading.specs.Ahead.{data_at, items_at, members_at, says, rest};

use crate::numbers::number_of;
use crate::simple::Simple;
use json::{Invalid, Reader, Token};

/// Passes the value that comes next. Arrays and objects may nest `depth` deep.
#[cycle(pass)]
pub fn pass(reader: &mut Reader<'_>, depth: usize) -> Result<(), Invalid>
    ensures ok { OnOk result (rest (data_at depth reader.old) ≡ Some reader.new) }
    ensures shorter { OnOk result (length reader.new < length reader.old) }
    ensures err { OnErr result (data_at depth reader.old ≡ None) }
{
    let Some(token) = reader.next() else {
        return Err(Invalid);
    };
    pass_rest(reader, token, depth)
}

/// Passes the rest of the value that this token begins.
#[cycle(pass)]
fn pass_rest(reader: &mut Reader<'_>, token: Token<'_>, depth: usize) -> Result<(), Invalid>
    ensures ok { OnOk result (rest (data_at depth (token_of token.entry ∷ reader.old)) ≡ Some reader.new) }
    ensures shorter { OnOk result (length reader.new ≤ length reader.old) }
    ensures err { OnErr result (data_at depth (token_of token.entry ∷ reader.old) ≡ None) }
{
    match token {
        Token::String(_) => Ok(()),
        Token::Bool(_) => Ok(()),
        Token::Null => Ok(()),
        Token::Number(text) => match number_of(text) {
            Some(_) => Ok(()),
            None => Err(Invalid),
        },
        Token::EndObject | Token::EndArray | Token::Key(_) | Token::Bad => Err(Invalid),
        Token::BeginArray => {
            if depth == 0 {
                return Err(Invalid);
            }
            pass_items(reader, depth - 1)
        }
        Token::BeginObject => {
            if depth == 0 {
                return Err(Invalid);
            }
            pass_members(reader, depth - 1)
        }
    }
}

/// Passes the items up to the end of their list.
#[cycle(pass)]
pub(crate) fn pass_items(reader: &mut Reader<'_>, depth: usize) -> Result<(), Invalid>
    ensures ok { OnOk result (rest (items_at depth reader.old) ≡ Some reader.new) }
    ensures shorter { OnOk result (length reader.new < length reader.old) }
    ensures err { OnErr result (items_at depth reader.old ≡ None) }
{
    'items: while !reader.take_end_array() {
        pass(reader, depth)?;
    }
    Ok(())
}

/// Passes the members up to the end of their object.
#[cycle(pass)]
fn pass_members(reader: &mut Reader<'_>, depth: usize) -> Result<(), Invalid>
    ensures ok { OnOk result (rest (members_at no_members depth reader.old) ≡ Some reader.new) }
    ensures shorter { OnOk result (length reader.new < length reader.old) }
    ensures err { OnErr result (members_at no_members depth reader.old ≡ None) }
{
    'members: while let Some(_) = reader.next_key()? {
        pass(reader, depth)?;
    }
    Ok(())
}

/// Takes the value that comes next, and tells what it says by itself; of a list only the bracket that
/// opens it, and tells nothing.
pub fn begin<'a>(reader: &mut Reader<'a>, depth: usize) -> Result<Option<Simple<'a>>, Invalid>
    ensures ok { IfOk result (λ begun. MatchOption begun ((reader.old ≡ begin_array ∷ reader.new) × (0 < depth))
        (λ s. says both_of depth reader.old ≡ Some ((shown s, None), reader.new))) }
    ensures shorter { OnOk result (length reader.new < length reader.old) }
    ensures err { OnErr result (data_at depth reader.old ≡ None) }
{
    let Some(token) = reader.next() else {
        return Err(Invalid);
    };
    match token {
        Token::String(text) => Ok(Some(Simple::Text(text))),
        Token::Bool(flag) => Ok(Some(Simple::Bool(flag))),
        Token::Null => Ok(Some(Simple::Null)),
        Token::Number(text) => match number_of(text) {
            Some(number) => Ok(Some(Simple::Number(number))),
            None => Err(Invalid),
        },
        Token::EndObject | Token::EndArray | Token::Key(_) | Token::Bad => Err(Invalid),
        Token::BeginArray => {
            if depth == 0 {
                return Err(Invalid);
            }
            Ok(None)
        }
        Token::BeginObject => {
            pass_rest(reader, token, depth)?;
            Ok(Some(Simple::Other))
        }
    }
}

/// What the value that comes next says by itself.
pub fn simple<'a>(reader: &mut Reader<'a>, depth: usize) -> Result<Simple<'a>, Invalid>
    ensures ok { IfOk result (λ s. says said_of depth reader.old ≡ Some (shown s, reader.new)) }
    ensures shorter { OnOk result (length reader.new < length reader.old) }
    ensures err { OnErr result (data_at depth reader.old ≡ None) }
{
    match begin(reader, depth)? {
        Some(simple) => Ok(simple),
        None => {
            pass_items(reader, depth - 1)?;
            Ok(Simple::Other)
        }
    }
}

fn begins_object(token: Token<'_>) -> bool
    ensures { result ≡ begins_object (token_of token.entry) }
{
    matches!(token, Token::BeginObject)
}

/// Whether the value that comes next is an object. Of an object the bracket that opens it is taken,
/// another value whole.
pub(crate) fn opens_object(reader: &mut Reader<'_>, depth: usize) -> Result<bool, Invalid>
    ensures ok { IfOk result (λ opened. MatchBool opened ((reader.old ≡ begin_object ∷ reader.new) × (0 < depth))
        (says as_object depth reader.old ≡ Some (None, reader.new))) }
    ensures shorter { OnOk result (length reader.new < length reader.old) }
    ensures err { OnErr result (data_at depth reader.old ≡ None) }
{
    let Some(token) = reader.next() else {
        return Err(Invalid);
    };
    if !begins_object(token) {
        pass_rest(reader, token, depth)?;
        return Ok(false);
    }
    if depth == 0 {
        return Err(Invalid);
    }
    Ok(true)
}
