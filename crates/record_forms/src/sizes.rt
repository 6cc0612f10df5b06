// The bytes of a record, for a caller that holds no table of the sets (01, "The record"; 02, C-11).
ghost use Rattle.std.specs.Prelude.{◌≡◌};
ghost use Rattle.record_forms.specs.Forms.{total_of};
ghost use Rattle.record_forms.specs.Sizes.{record_bytes_asked};

use crate::Form;
use sets::Set;

// Of the set that a number asks for; 0 where there is no such set.
pub fn record_bytes(form: Form, set: u32) -> u32
    ensures { result ≡ record_bytes_asked form set }
{
    Set::asked(set).map_or(0, |s| record_bytes_of(form, s))
}

fn record_bytes_of(form: Form, s: Set) -> u32
    ensures { result ≡ total_of form s }
{
    form.total(s) as u32
}
