// The sections of a plain record, as parts of the lent record itself. The number and the place go into the two lent numbers, refused or not: with a refusal a part
// comes back too, the empty one, which no Result holds, and `z1_section_determined` and its fellows speak of what the numbers hold.
// Three functions, since C exports each, and each has its theorem.
ghost use Rattle.std.specs.Prelude.{◌≡◌, ◌≤◌, length};
ghost use Rattle.sets.specs.declared.Set.{Set};
ghost use Rattle.answers.specs.Outcomes.{number_of, place_of};
ghost use Rattle.record_forms.specs.declared.Form.TheVariants.{Plain};
ghost use Rattle.record_forms.specs.Headers.{header_in};
ghost use Rattle.record_forms.specs.Sections.{fetched, section_of, z1_section, z2_section, list_section};

use crate::{Form, LIST_OFFSET, Z1_OFFSET, Z2_OFFSET, header_in};
use answers::Outcome;

pub fn z1_section<'a>(rec: &'a [u8], number: &mut u32, place: &mut u32) -> &'a [u8]
    ensures { fetched result.ref_ptr result.now number.new place.new ≡ z1_section rec.entry.ref_ptr rec.now }
{
    section(rec, Z1_OFFSET, Z2_OFFSET, number, place)
}

pub fn z2_section<'a>(rec: &'a [u8], number: &mut u32, place: &mut u32) -> &'a [u8]
    ensures { fetched result.ref_ptr result.now number.new place.new ≡ z2_section rec.entry.ref_ptr rec.now }
{
    section(rec, Z2_OFFSET, LIST_OFFSET, number, place)
}

pub fn list_section<'a>(rec: &'a [u8], number: &mut u32, place: &mut u32) -> &'a [u8]
    ensures { fetched result.ref_ptr result.now number.new place.new ≡ list_section rec.entry.ref_ptr rec.now }
{
    section(rec, LIST_OFFSET, rec.len(), number, place)
}

// The part from one place up to another, which lies within every record of a good header.
fn section<'a>(rec: &'a [u8], from: usize, to: usize, number: &mut u32, place: &mut u32) -> &'a [u8]
    requires { (s : Set) → header_in Plain rec.now ≡ Ok s → (from ≤ to) × (to ≤ length rec.now) }
    ensures { fetched result.ref_ptr result.now number.new place.new ≡ section_of from to rec.entry.ref_ptr rec.now }
{
    match header_in(Form::Plain, rec) {
        Err(malformed) => {
            tell(Err(malformed.into()), number, place);
            &rec[..0]
        }
        Ok(_) => {
            tell(Ok(()), number, place);
            &rec[from..to]
        }
    }
}

fn tell(o: Outcome, number: &mut u32, place: &mut u32)
    ensures { (number.new ≡ number_of o) × (place.new ≡ place_of o) }
{
    *number = answers::number(o);
    *place = answers::place(o);
}
