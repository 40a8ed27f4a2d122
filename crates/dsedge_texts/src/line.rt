//! A line in a value of its own: to make one takes no memory.
ghost use Rattle.std.specs.Prelude.{◌≡◌, ◌+◌, ◌≤◌, ◌++◌, length};
ghost use Rattle.arrayvec.specs.ArrayVec.{array_vec_len};
ghost use Rattle.dsedge_texts.specs.Wording.{figure};

use arrayvec::ArrayVec;
use ds_domain::Name;
use itoa::Buffer;

/// The bytes of a line: a name and three figures fit, and what stands before and between them.
pub type Line = ArrayVec<u8, 192>;

/// Appends bytes.
pub fn push(text: &mut Line, bytes: &[u8])
    requires { array_vec_len text.now + length bytes.now ≤ 192 }
    ensures { text.new.items ≡ text.old.items ++ bytes.now }
{
    if text.try_extend_from_slice(bytes).is_err() {
        unreachable!();
    }
}

/// Appends a name.
#[tactic(auto, using(ds_domain_base::proofs::NameLaws::name_fits))]
pub fn push_word(text: &mut Line, name: Name)
    requires { array_vec_len text.now ≤ 160 }
    ensures text { text.new.items ≡ text.old.items ++ name }
    ensures room { array_vec_len text.new ≤ array_vec_len text.old + 32 }
{
    push(text, name.bytes());
}

/// Appends a figure, behind a space.
pub fn push_figure(text: &mut Line, number: u128)
    requires { array_vec_len text.now ≤ 151 }
    ensures text { text.new.items ≡ text.old.items ++ figure number }
    ensures room { array_vec_len text.new ≤ array_vec_len text.old + 41 }
{
    push(text, b" ");
    push(text, Buffer::new().format(number).as_bytes());
}
