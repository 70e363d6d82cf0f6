// A strike: what a card's message means, in both directions, and strikes as lists of numbers (SPECIFICATION 6). The only place where the
// layout of a message stands.
#![tactic(auto)]

ghost use Rattle.std.specs.Prelude.{◌≡◌, true, take};
ghost use Rattle.coding.specs.Code.{is_message};
ghost use Rattle.strike.specs.Strikes.{in_range, no_bell, strike_of, strike_message};
ghost use Rattle.strike.specs.Turns.{strikes_bad};

// The most that each number of a strike may be.
const BELL_MOST: u32 = 47;

const FORCE_MOST: u32 = 8;

const DELAY_MOST: u32 = 728;

// A bell struck with a force, and the ticks until the next strike. Bell 0 is a rest. The default, all zeros, stands where a refusal has no
// strike.
#[derive(Clone, Copy, Debug, Default, PartialEq, Eq)]
pub struct Strike {
    pub bell: u32,
    pub force: u32,
    pub delay: u32,
}

impl Strike {
    // Whether each number is in its range.
    #[tactic(auto, unfolding(crate::specs::Strikes::in_range))]
    pub fn is_in_range(self) -> bool
        ensures { result ≡ in_range self }
    {
        self.bell <= BELL_MOST && self.force <= FORCE_MOST && self.delay <= DELAY_MOST
    }

    // Refusal 13: whether the bell is above the last.
    #[tactic(auto, unfolding(crate::specs::Strikes::no_bell))]
    pub fn has_no_bell(self) -> bool
        ensures { result ≡ no_bell self }
    {
        BELL_MOST < self.bell
    }

    // The strike of a message, its first four numbers: the second is 9 times a register plus the force, and a register has 27 bells.
    #[tactic(auto, using(crate::specs::Strikes::value_below), unfolding(crate::specs::Strikes::strike_of, rank::specs::Definitions::at))]
    pub fn from_message(message: [u16; 10]) -> Strike
        requires { is_message 2 (take 4 message) ≡ true }
        ensures { result ≡ strike_of (take 4 message) }
    {
        let place = u32::from(message[0]);
        let second = u32::from(message[1]);
        let high = u32::from(message[2]);
        let low = u32::from(message[3]);
        let register = second / 9;
        Strike {
            bell: 27 * register + place,
            force: second % 9,
            delay: 27 * high + low,
        }
    }

    // The message of a strike in range, in the first four places.
    #[tactic(auto, using(crate::specs::Strikes::range_parts), unfolding(crate::specs::Strikes::strike_message))]
    pub fn message(self) -> [u16; 10]
        requires { in_range self ≡ true }
        ensures { take 4 result ≡ strike_message self }
    {
        let register = self.bell / 27;
        let place = (self.bell % 27) as u16;
        let second = (9 * register + self.force) as u16;
        let high = (self.delay / 27) as u16;
        let low = (self.delay % 27) as u16;
        [place, second, high, low, 0, 0, 0, 0, 0, 0]
    }
}

// Refusal 10: whether some number of a list is out of its range, taken as bell, force, delay by turns from the first. A list that ends
// within a strike is tested too.
#[tactic(auto, using(crate::specs::Turns::beyond_next, crate::specs::Turns::beyond_here, crate::specs::Turns::beyond_end))]
pub fn strikes_bad(numbers: &[u16]) -> bool
    ensures { result ≡ strikes_bad numbers.now }
{
    let mut most = BELL_MOST;
    let mut next = FORCE_MOST;
    let mut last = DELAY_MOST;
    for number in numbers {
        if most < u32::from(*number) {
            return true;
        }
        (most, next, last) = (next, last, most);
    }
    false
}
