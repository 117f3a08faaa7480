// The values that the calls store, of an answer: number and place, 0 and 0 where the call is done,
// then the bytes written, 0 where it is refused.

ghost use Rattle.std.specs.Prelude.{◌≡◌};
ghost use Rattle.form.specs.declared.Undrawn.{Undrawn};
ghost use Rattle.calls.specs.Promises.{three_in, five_values};

use form::Undrawn;
use table::Numbered;

pub(crate) fn three_values<R: Numbered + Copy>(answer: Result<usize, R>) -> [u64; 3]
    ensures { result ≡ three_in R.number_of R.place_of answer }
{
    match answer {
        Ok(written) => [0, 0, written as u64],
        Err(refusal) => [u64::from(refusal.number()), refusal.place() as u64, 0],
    }
}

// For a readable table, with the line and the column of a text that isn't of the form.
pub(crate) fn five_values(answer: Result<usize, Undrawn>) -> [u64; 5]
    ensures { result ≡ five_values answer }
{
    let [number, place, written] = three_values(answer);
    match answer {
        Ok(_) => [number, place, written, 0, 0],
        Err(undrawn) => [
            number,
            place,
            written,
            undrawn.line() as u64,
            undrawn.column() as u64,
        ],
    }
}
