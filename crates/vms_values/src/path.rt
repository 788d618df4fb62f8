// The path of a cell in a device.
ghost use Rattle.vms_io.specs.Told.{outlet};
ghost use Rattle.vms_io.specs.Writing.{Wrote};
ghost use Rattle.vms_parts.specs.Views.{field_of};
ghost use Rattle.vms_values.specs.Paths.{element_text, path_text};

use crate::lines::write_pieces;
use itoa::Buffer;
use vms_desc::{Count, Field};
use vms_io::{Failed, Sink, write_all_of};

/// The path of a field or of an element: its last part, and what comes before it.
#[derive(Clone, Copy)]
pub(crate) enum Path<'a> {
    /// Nothing: the fields of a device or a subsection have only their names.
    Top,
    /// A field, or the element `index` of it if it is an array.
    Field {
        before: &'a Path<'a>,
        field: &'a Field,
        index: u32,
    },
    /// The fields of a structure.
    Inside(&'a Path<'a>),
}

/// Writes the text of `path` to `sink`.
pub(crate) fn write_path<K: Sink>(sink: &mut K, path: &Path) -> Result<(), Failed>
    ensures { Wrote (outlet K.Sink sink.old) (outlet K.Sink sink.new) (path_text path.now) result }
{
    match path {
        Path::Top => Ok(()),
        Path::Field {
            before,
            field,
            index,
        } => {
            write_path(sink, before)?;
            write_element(sink, field, *index)
        }
        Path::Inside(path) => {
            write_path(sink, path)?;
            write_all_of(sink, b".")
        }
    }
}

// Writes the name of a field, and the number of its element if it is an array.
fn write_element<K: Sink>(sink: &mut K, field: &Field, index: u32) -> Result<(), Failed>
    ensures { let text = element_text (field_of field.now) index in
        Wrote (outlet K.Sink sink.old) (outlet K.Sink sink.new) text result }
{
    let name = field.name.as_bytes();
    match field.count {
        Count::One => write_all_of(sink, name),
        _ => {
            let mut digits = Buffer::new();
            let index = digits.format(index).as_bytes();
            write_pieces(sink, &[name, b"[", index, b"]"])
        }
    }
}
