ghost use Rattle.std.specs.Prelude.{◌≡◌, map, length, Ok, Err, IfErr, IfOk};
ghost use Rattle.dsedge_texts.specs.Readable.{IsNamed, IsUnread, texts_of};

use crate::fault::{FileFault, TextFault};
use crate::folder::Folder;
use dsedge_lines::GivenName;
use std::alloc::Global;

/// What the files of some names hold, in the order of the names; none is read behind one that gives no text.
pub fn read_texts<'a, F: Folder>(
    alloc: Global,
    folder: &F,
    names: &[GivenName<'a>],
) -> Result<Vec<Vec<u8>>, TextFault<'a>>
    ensures texts { F.tells folder.now → IfOk result (λ texts.
        texts_of (F.holds folder.now) names.now ≡ Ok (map (λ text. text.items) texts.items)) }
    ensures count { IfOk result (λ texts. length texts.items ≡ length names.now) }
    ensures named { IfErr result (IsNamed names.now) }
    ensures refused { F.tells folder.now → IfErr result (IsUnread (F.holds folder.now) names.now) }
{
    let mut texts = Vec::new(alloc);
    for name in names {
        let text = match folder.read(alloc, name.text()) {
            Ok(text) => text,
            Err(FileFault::Unreadable(reason)) => {
                return Err(TextFault::File(GivenName::new(name.text()), reason));
            }
            Err(FileFault::NoMemory) => return Err(TextFault::NoMemory),
        };
        let Ok(()) = texts.push(text) else {
            return Err(TextFault::NoMemory);
        };
    }
    Ok(texts)
}
