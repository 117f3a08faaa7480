// The check of a table image for programs in other languages.

ghost use Rattle.calls.specs.Promises.{Judged};

use judge::check;
use table::Numbered;

// Checks a table image, of either form, and stores the verdict's two values: number and place, 0
// and 0 where it is accepted. It needs 1,700 bytes of stack, whatever it is asked (bench/stack).
pub fn tlopahuexi_check(image: &[u8], answer: &mut [u64; 2])
    ensures { Judged image.now answer.new }
{
    *answer = match check(image) {
        Ok(()) => [0, 0],
        Err(refusal) => [u64::from(refusal.number()), refusal.place() as u64],
    };
}
