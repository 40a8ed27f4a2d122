ghost use Rattle.std.specs.Prelude.{◌≡◌};
ghost use Rattle.std.specs.List.{list_all};
ghost use Rattle.ds_certificate.specs.Texts.{form_headed, form_of, heading, is_short};

use crate::bound::Bound;
use crate::certificate::{Bounds, Certificate};

/// The two forms of a certificate's text.
#[derive(Clone, Copy)]
pub(crate) enum Form {
    /// `dscert 1`: a line says green and all of a bound, and its excess is its all.
    Short,
    /// `dscert 2`: a line says green, all and excess.
    Long,
}

impl Form {
    /// The form in which a certificate is written: the short one exactly where every excess is its all.
    pub(crate) fn of(certificate: &Certificate) -> Self
        ensures { result ≡ form_of certificate.now }
    {
        if is_short(certificate.bounds()) {
            Form::Short
        } else {
            Form::Long
        }
    }

    /// The first line of a text of this form.
    pub(crate) fn heading(self) -> &'static [u8]
        ensures { result.now ≡ heading self }
    {
        match self {
            Form::Short => "dscert 1".as_bytes(),
            Form::Long => "dscert 2".as_bytes(),
        }
    }

    /// The form whose texts begin with a line, if there is one.
    pub(crate) fn headed(line: &[u8]) -> Option<Self>
        ensures { result ≡ form_headed line.now }
    {
        if line == Form::Short.heading() {
            Some(Form::Short)
        } else if line == Form::Long.heading() {
            Some(Form::Long)
        } else {
            None
        }
    }
}

/// Whether the excess of each bound of each contract is its all.
fn is_short(rows: &[Bounds]) -> bool
    ensures { result ≡ list_all (list_all is_short) rows.now }
{
    rows.iter().all(are_short)
}

/// Whether the excess of each of a contract's bounds is its all.
fn are_short(bounds: &Bounds) -> bool
    ensures { result ≡ list_all is_short bounds.now }
{
    bounds.hops().iter().all(is_plain)
}

/// Whether a bound's excess is its all.
fn is_plain(bound: &Bound) -> bool
    ensures { result ≡ is_short bound.now }
{
    bound.excess() == bound.all()
}
