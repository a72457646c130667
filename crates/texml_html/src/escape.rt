//! Bytes that HTML can't have as they are.

ghost use Rattle.std.specs.Prelude.{◌≡◌, ◌∷◌, ◌++◌, [], unwrap_or};
ghost use Rattle.std.specs.Option.{option_map};
ghost use Rattle.texml_html.specs.Html.{byte_in, escaped};
ghost use Rattle.texml_html.specs.declared.escape.Inside.TheVariants.{Text, Attribute};
ghost use Rattle.texml_html.specs.Writing.{Wrote, lent_by};

use crate::writer::Writer;
use texml_base::Sink;

/// Where a byte stands.
#[derive(Clone, Copy)]
pub enum Inside {
    Text,
    Attribute,
}

/// Writes the bytes, those escaped that ask for it.
pub(crate) fn put_escaped<S: Sink>(out: &mut Writer<'_, S>, inside: Inside, bytes: &[u8])
    ensures { Wrote (lent_by S.ink S.faults out.old) (escaped inside bytes.now) (lent_by S.ink S.faults out.new) }
{
    let mut from = 0;
    for at in 0..bytes.len() {
        match escape(inside, bytes[at]) {
            None => {}
            Some(name) => {
                put_escape(out, &bytes[from..at], name);
                from = at + 1;
            }
        }
    }
    out.put(&bytes[from..]);
}

/// Writes bytes that stand for themselves, and what stands for the byte behind them.
fn put_escape<S: Sink>(out: &mut Writer<'_, S>, plain: &[u8], name: &[u8])
    ensures { Wrote (lent_by S.ink S.faults out.old) (plain.now ++ name.now) (lent_by S.ink S.faults out.new) }
{
    out.put(plain);
    out.put(name);
}

/// What stands for a byte, where it can't stand itself.
fn escape(inside: Inside, byte: u8) -> Option<&'static [u8]>
    ensures { unwrap_or (option_map (λ name. name.now) result) (byte ∷ []) ≡ byte_in inside byte }
{
    match inside {
        Inside::Text => escape_in_text(byte),
        Inside::Attribute => escape_in_attribute(byte),
    }
}

fn escape_in_text(byte: u8) -> Option<&'static [u8]>
    ensures { unwrap_or (option_map (λ name. name.now) result) (byte ∷ []) ≡ byte_in Text byte }
{
    match byte {
        b'&' => Some(b"&amp;"),
        b'<' => Some(b"&lt;"),
        b'>' => Some(b"&gt;"),
        _ => None,
    }
}

fn escape_in_attribute(byte: u8) -> Option<&'static [u8]>
    ensures { unwrap_or (option_map (λ name. name.now) result) (byte ∷ []) ≡ byte_in Attribute byte }
{
    match byte {
        b'&' => Some(b"&amp;"),
        b'"' => Some(b"&quot;"),
        b'<' => Some(b"&lt;"),
        _ => None,
    }
}
