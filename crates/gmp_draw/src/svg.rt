//! Pieces of SVG, each put at the end of what is gathered.

ghost use Rattle.std.specs.Prelude.{◌≡◌, ◌++◌, OnOk, codes, decimal, length};
ghost use Rattle.gmp_draw.specs.Svg.{attribute, escaped, escaped_byte, opening, place, rect, size, words};

use itoa::Buffer;
use std::alloc::AllocError;

/// A rectangle of pixels.
#[derive(Clone, Copy)]
pub struct Area {
    pub x: u64,
    pub y: u64,
    pub width: u64,
    pub height: u64,
}

/// These bytes.
pub fn put(out: &mut Vec<u8>, bytes: &[u8]) -> Result<(), AllocError>
    ensures { OnOk result (out.new.items ≡ out.old.items ++ bytes.now) }
{
    out.extend_from_slice(bytes)
}

/// The digits of a number.
pub fn put_number(out: &mut Vec<u8>, n: u64) -> Result<(), AllocError>
    ensures { OnOk result (out.new.items ≡ out.old.items ++ decimal n) }
{
    out.extend_from_slice(Buffer::new().format(n).as_bytes())
}

/// How many digits a number has.
pub fn digits(n: u64) -> u64
    ensures { result ≡ length (decimal n) }
{
    Buffer::new().format(n).len() as u64
}

/// One byte of a text.
fn put_byte(out: &mut Vec<u8>, byte: u8) -> Result<(), AllocError>
    ensures { OnOk result (out.new.items ≡ out.old.items ++ escaped_byte byte) }
{
    if byte == b'<' {
        put(out, b"&lt;")
    } else if byte == b'>' {
        put(out, b"&gt;")
    } else if byte == b'&' {
        put(out, b"&amp;")
    } else {
        put(out, &[byte])
    }
}

/// Text, with an entity for each byte that would be read as markup.
pub fn put_escaped(out: &mut Vec<u8>, text: &[u8]) -> Result<(), AllocError>
    ensures { OnOk result (out.new.items ≡ out.old.items ++ escaped text.now) }
{
    for byte in text {
        put_byte(out, *byte)?;
    }
    Ok(())
}

/// A space and an attribute with a number.
#[tactic(auto, unfolding(crate::specs::Svg::attribute))]
fn put_attribute(out: &mut Vec<u8>, name: &[u8], n: u64) -> Result<(), AllocError>
    ensures { OnOk result (out.new.items ≡ out.old.items ++ attribute name.now n) }
{
    out.push(b' ')?;
    put(out, name)?;
    put(out, b"=\"")?;
    put_number(out, n)?;
    out.push(b'"')?;
    Ok(())
}

/// An element of a class, up to its further attributes.
#[tactic(auto, unfolding(crate::specs::Svg::opening))]
fn open_element(out: &mut Vec<u8>, name: &[u8], class: &[u8]) -> Result<(), AllocError>
    ensures { OnOk result (out.new.items ≡ out.old.items ++ opening name.now class.now) }
{
    out.push(b'<')?;
    put(out, name)?;
    put(out, b" class=\"")?;
    put(out, class)?;
    out.push(b'"')?;
    Ok(())
}

/// The attributes of a place.
#[tactic(auto, unfolding(crate::specs::Svg::place))]
fn put_place(out: &mut Vec<u8>, x: u64, y: u64) -> Result<(), AllocError>
    ensures { OnOk result (out.new.items ≡ out.old.items ++ place x y) }
{
    put_attribute(out, b"x", x)?;
    put_attribute(out, b"y", y)
}

/// The attributes of a size.
#[tactic(auto, unfolding(crate::specs::Svg::size))]
fn put_size(out: &mut Vec<u8>, width: u64, height: u64) -> Result<(), AllocError>
    ensures { OnOk result (out.new.items ≡ out.old.items ++ size width height) }
{
    put_attribute(out, b"width", width)?;
    put_attribute(out, b"height", height)
}

/// A rectangle of a class.
#[tactic(auto, unfolding(crate::specs::Svg::rect))]
pub fn put_rect(out: &mut Vec<u8>, class: &[u8], area: Area) -> Result<(), AllocError>
    ensures { OnOk result (out.new.items ≡ out.old.items ++ rect class.now area) }
{
    open_element(out, b"rect", class)?;
    put_place(out, area.x, area.y)?;
    put_size(out, area.width, area.height)?;
    put(out, b"/>")
}

/// Where a text of a class begins. Its words and `</text>` follow.
#[tactic(auto, unfolding(crate::specs::Svg::words))]
pub fn open_text(out: &mut Vec<u8>, class: &[u8], x: u64, y: u64) -> Result<(), AllocError>
    ensures { OnOk result (out.new.items ≡ out.old.items ++ words class.now x y) }
{
    open_element(out, b"text", class)?;
    put_place(out, x, y)?;
    out.push(b'>')?;
    Ok(())
}

/// A point of a path behind its letter or the one before.
pub fn put_point(out: &mut Vec<u8>, x: u64, y: u64) -> Result<(), AllocError>
    ensures { OnOk result (out.new.items ≡ out.old.items ++ decimal x ++ codes " " ++ decimal y ++ codes " ") }
{
    put_number(out, x)?;
    out.push(b' ')?;
    put_number(out, y)?;
    out.push(b' ')?;
    Ok(())
}
