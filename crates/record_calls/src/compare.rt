// The comparison of a listing on byte buffers, for C and for whatever calls C: include/em73862.h and include/em73p982.h declare the calls.
// Two answers of a call to the same inputs are equal: proofs/OneAnswer.antt.
ghost use Rattle.record_calls.specs.Compare.{CompareCall};

use compare_lines::Compared;
use compare_listing::compare;
use device::Device;

// The refusal's number, or 0; the line and the field of a difference, and 0 where there is none.
pub fn compare_buffers(
    d: Device,
    image: &[u8],
    script: &[u8],
    listing: &[u8],
    line: &mut u64,
    field: &mut u8,
) -> u8
    ensures { CompareCall d image.now script.now listing.now result line.new field.new }
{
    *line = 0;
    *field = 0;
    match compare(d, image, script, listing) {
        Ok(Compared::Same) => 0,
        Ok(Compared::Differs { line: n, field: m }) => {
            *line = n;
            *field = m;
            0
        }
        Err(refusal) => u8::from(refusal),
    }
}
