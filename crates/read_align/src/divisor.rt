// Euclid's rule, dividing down until nothing remains.
ghost use Rattle.read_align.specs.Divisor.{Greatest};

// The greatest common divisor of two numbers; of 0 and 0 it is 0.
pub fn gcd(a: u32, b: u32) -> u32
    ensures { Greatest result a b }
{
    if b == 0 {
        return a;
    }
    gcd(b, a % b)
}
