// Delay values.
ghost use Rattle.std.specs.Prelude.{◌≡◌};
ghost use Rattle.primes.specs.Table.{prime_at};
ghost use Rattle.primes.specs.Power.{nearest_power};
ghost use Rattle.primes.specs.Values.{valued, delay_min, value_from, judged_min, judged_power, judged_value};
ghost use Rattle.hall.specs.Face.{faced_value};

use crate::HallValue;

// The least delay of a line, in samples (R6.17).
pub fn hall_delay_min(time: f32, rate: u32) -> HallValue
    ensures { result ≡ faced_value (valued (judged_min time rate) (delay_min time rate)) }
{
    HallValue::from(primes::delay_min(time, rate))
}

// The power of a prime of the table that is nearest to x (R6.18).
pub fn hall_prime_power(x: u32, index: usize) -> HallValue
    ensures { result ≡ faced_value (valued (judged_power x index) (nearest_power (prime_at index) x)) }
{
    HallValue::from(primes::prime_power(x, index))
}

// The delay value of one line, from its random number (R6.19).
pub fn hall_delay_value(time: f32, rate: u32, random: u16, index: usize) -> HallValue
    ensures { result ≡ faced_value (valued (judged_value time rate index) (value_from (delay_min time rate) random index)) }
{
    HallValue::from(primes::delay_value(time, rate, random, index))
}
