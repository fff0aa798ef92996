//! What a picture holds.

ghost use Rattle.std.specs.Prelude.{◌≡◌, ◌++◌, [], codes, IfOk, OnOk, OnErr};
ghost use Rattle.mv_svg.specs.Xml.{IsContent};
ghost use Rattle.mv_svg.specs.Escapes.{escaped};
ghost use Rattle.mv_svg.specs.Shapes.{inside, element, shape_text, words_text};

use crate::attribute::{tag_of, write_attribute, write_look, write_places};
use crate::escape::write_escaped;
use crate::look::Look;
use crate::shape::Shape;
use mv_values::list::List;
use mv_values::memory::NoMemory;
use std::alloc::Global;

/// What a picture, a group or a shape holds: shapes, words and titles, one after another. Its text is well-formed. What is
/// added to it comes after what it has. If memory runs out, it stays as it is.
#[derive(Drop)]
pub struct Content {
    text: List<u8>,
    ghost well_formed: { ∥ IsContent text ∥₁ },
}

impl Content {
    /// Returns empty content. It allocates nothing.
    pub fn new(alloc: Global) -> Content
        ensures { result.text ≡ [] }
    {
        Content {
            text: List::new(alloc),
        }
    }

    /// Returns the title of what it's put in.
    pub fn titled(alloc: Global, words: &[u8]) -> Result<Content, NoMemory>
        ensures { IfOk result (λ content. content.text ≡ element (codes "title") [] (escaped words.now)) }
    {
        let mut inner = List::new(alloc);
        write_escaped(words, &mut inner)?;
        let mut text = List::new(alloc);
        write_element(b"title", inner.as_slice(), &mut text)?;
        Ok(Content { text })
    }

    /// Adds a shape that holds other content, such as its title.
    pub fn add_shape(
        &mut self,
        alloc: Global,
        look: Look,
        shape: Shape,
        inner: &Content,
    ) -> Result<(), NoMemory>
        ensures ok { OnOk result (self.new.text ≡ self.old.text ++ shape_text look shape inner.now.text) }
        ensures err { OnErr result (self.new.text ≡ self.old.text) }
    {
        let mut piece = List::new(alloc);
        write_shape(look, shape, inner.text.as_slice(), &mut piece)?;
        self.text.append(piece.as_slice())
    }

    /// Adds words at a place.
    pub fn add_words(
        &mut self,
        alloc: Global,
        look: Look,
        x: u32,
        y: u32,
        words: &[u8],
    ) -> Result<(), NoMemory>
        ensures ok { OnOk result (self.new.text ≡ self.old.text ++ words_text look x y (escaped words.now)) }
        ensures err { OnErr result (self.new.text ≡ self.old.text) }
    {
        let mut inner = List::new(alloc);
        write_escaped(words, &mut inner)?;
        let mut piece = List::new(alloc);
        write_words(look, x, y, inner.as_slice(), &mut piece)?;
        self.text.append(piece.as_slice())
    }

    /// Adds other content as a group. A title in it is that of the group.
    pub fn add_group(&mut self, alloc: Global, inner: &Content) -> Result<(), NoMemory>
        ensures ok { OnOk result (self.new.text ≡ self.old.text ++ element (codes "g") [] inner.now.text) }
        ensures err { OnErr result (self.new.text ≡ self.old.text) }
    {
        let mut piece = List::new(alloc);
        write_element(b"g", inner.text.as_slice(), &mut piece)?;
        self.text.append(piece.as_slice())
    }

    /// Returns the text.
    pub(crate) fn text(&self) -> &[u8]
        ensures text { result.now ≡ self.now.text }
        ensures well { ∥ IsContent result.now ∥₁ }
    {
        self.text.as_slice()
    }
}

/// Adds an element without attributes.
pub(crate) fn write_element(tag: &[u8], inner: &[u8], text: &mut List<u8>) -> Result<(), NoMemory>
    ensures { OnOk result (text.new ≡ text.old ++ element tag.now [] inner.now) }
{
    text.push(b'<')?;
    text.append(tag)?;
    write_inside(tag, inner, text)
}

fn write_shape(look: Look, shape: Shape, inner: &[u8], text: &mut List<u8>) -> Result<(), NoMemory>
    ensures { OnOk result (text.new ≡ text.old ++ shape_text look shape inner.now) }
{
    let tag = tag_of(shape);
    text.push(b'<')?;
    text.append(tag)?;
    write_look(look, text)?;
    write_places(shape, text)?;
    write_inside(tag, inner, text)
}

fn write_words(
    look: Look,
    x: u32,
    y: u32,
    inner: &[u8],
    text: &mut List<u8>,
) -> Result<(), NoMemory>
    ensures { OnOk result (text.new ≡ text.old ++ words_text look x y inner.now) }
{
    text.append(b"<text")?;
    write_look(look, text)?;
    write_attribute(b"x", x, text)?;
    write_attribute(b"y", y, text)?;
    write_inside(b"text", inner, text)
}

/// Adds the rest of an element after its attributes.
pub(crate) fn write_inside(tag: &[u8], inner: &[u8], text: &mut List<u8>) -> Result<(), NoMemory>
    ensures { OnOk result (text.new ≡ text.old ++ inside tag.now inner.now) }
{
    text.push(b'>')?;
    text.append(inner)?;
    text.append(b"</")?;
    text.append(tag)?;
    text.push(b'>')
}
