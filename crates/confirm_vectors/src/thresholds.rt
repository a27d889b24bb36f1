// The call of the threshold vote. A reading is given by its bit pattern.
use lines::{input, output};
use std::num::{f64_from_bits_with_nan, f64_to_bits_with_nan};
use threshold::{Readings, Threshold};

fn reading() -> f64 {
    f64_from_bits_with_nan(input::wide_number())
}

fn vote() {
    let readings = Readings {
        x1: reading(),
        x2: reading(),
        x3: reading(),
        tolerance: reading(),
    };
    let answer = readings.vote();
    let bits = match answer {
        Threshold::Agreed(m) => f64_to_bits_with_nan(m),
        Threshold::Alarm | Threshold::Refused(_) => 0,
    };
    output::first(answer.number());
    output::next(answer.mark());
    output::next(bits);
}

// Makes the call of this name; false if there is none.
pub fn answer(name: &[u8]) -> bool {
    match name {
        b"threshold" => vote(),
        _ => return false,
    }
    true
}
