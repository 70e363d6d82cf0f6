// A message for a k: 2k small numbers, in the first places of ten. Its word is the values of its polynomial at 1, z, .. z^5, a coefficient at a time.
// It is linear in the digits of the message.
ghost use Rattle.std.specs.Prelude.{◌≡◌, true, ◌*◌, take};
ghost use Rattle.coding.specs.Code.{is_message};

use crate::dimension::Dimension;
use crate::packed::Counts;

// What the low number of each coefficient of a message's polynomial but the last adds to the word: a row of packed digits for each of its digits.
static LOW: [[[u64; 4]; 3]; 5] = [
    [
        [0x2000000000001, 0x800000000, 0x200000, 0x100000000000080],
        [
            0x102081020000002,
            0x204041010408100,
            0x202081000408082,
            0x104080820000082,
        ],
        [
            0x4000010400002,
            0x202000810204100,
            0x200040820208002,
            0x202080800408102,
        ],
    ],
    [
        [0x1, 0x2001010200001, 0x102000010004080, 0x200041020208082],
        [
            0x202081020000002,
            0x200040810208002,
            0x200040820008000,
            0x204080800004002,
        ],
        [
            0x200080010400002,
            0x102040810404101,
            0x41020400002,
            0x204040000208102,
        ],
    ],
    [
        [
            0x102000000000001,
            0x200001000000080,
            0x4001020000101,
            0x100040010400082,
        ],
        [
            0x200001020000002,
            0x4000000204100,
            0x204041000408101,
            0x4040810408100,
        ],
        [
            0x80010400002,
            0x202040820008102,
            0x2080820200082,
            0x102040020400081,
        ],
    ],
    [
        [
            0x4040000000001,
            0x104081000208100,
            0x1020400000,
            0x202080000008001,
        ],
        [
            0x204041020000002,
            0x202000820408002,
            0x104080000004102,
            0x4041010004080,
        ],
        [
            0x2080010400002,
            0x41020004101,
            0x100000810204001,
            0x204081000008082,
        ],
    ],
    [
        [0x1, 0x80820208102, 0x204081010008102, 0x40810404082],
        [
            0x104081020000002,
            0x4081020000000,
            0x100001020404002,
            0x104001000208001,
        ],
        [
            0x100040010400002,
            0x2041020204081,
            0x40000200002,
            0x102080000200001,
        ],
    ],
];

// What the high number of each but the first adds.
static HIGH: [[[u64; 4]; 3]; 5] = [
    [
        [0x80, 0x100080810000080, 0x204080800204000, 0x80000404081],
        [
            0x202081020004082,
            0x41000400082,
            0x204041010408081,
            0x202040820400002,
        ],
        [
            0x200040820000100,
            0x104040000208102,
            0x100081010004082,
            0x200000800408080,
        ],
    ],
    [
        [
            0x100000000000080,
            0x4080820404001,
            0x200001020000002,
            0x4000000204100,
        ],
        [
            0x202041020004082,
            0x200000010008082,
            0x80010400002,
            0x202040820008102,
        ],
        [
            0x102080820000100,
            0x100040020408080,
            0x104001020000001,
            0x104000800204080,
        ],
    ],
    [
        [
            0x80000000080,
            0x200081020208100,
            0x104081010004102,
            0x102000820400000,
        ],
        [
            0x81020004082,
            0x104040010400082,
            0x100040000208100,
            0x202080800004081,
        ],
        [
            0x40820000100,
            0x2081000008100,
            0x104080820208101,
            0x202080820404081,
        ],
    ],
    [
        [
            0x104080000000080,
            0x4041010008080,
            0x100040820400082,
            0x2040820004002,
        ],
        [
            0x204001020004082,
            0x204081000000001,
            0x104081010204082,
            0x202081020200001,
        ],
        [
            0x204040820000100,
            0x102081010004101,
            0x2000010000100,
            0x100001020200080,
        ],
    ],
    [
        [
            0x2080000000080,
            0x4040020004102,
            0x40000004000,
            0x202001000008000,
        ],
        [
            0x102081020004082,
            0x1020208081,
            0x202081020208082,
            0x81010004001,
        ],
        [
            0x4000820000100,
            0x102080010200080,
            0x200001010004081,
            0x100000020204000,
        ],
    ],
];

#[derive(Clone, Copy)]
pub struct Message {
    pub k: Dimension,
    pub numbers: [u16; 10],
    ghost small: { is_message k.value (take (2 * k.value) numbers) ≡ true },
}

impl Message {
    ghost use Rattle.coding.specs.Code.{word};
    ghost use Rattle.codec.specs.Messages.{numbers_of};

    // The word of the message. The last coefficient has a high number only, which stands in the low one's place.
    #[tactic(auto, using(transform::specs::Transforms::message_small, transform::specs::Packed::table_bounded))]
    pub fn word(self) -> [u16; 6]
        ensures { result ≡ word self.k.value (numbers_of self) }
    {
        let k = self.k.value;
        let mut counts = Counts::none().add_small(self.numbers[0], LOW[0]);
        for s in 1..k {
            // The borrow checker lays no call's result in an array that is written again.
            let high = counts.add_small(self.numbers[2 * s], HIGH[s - 1]);
            let low = high.add_small(self.numbers[2 * s - 1], LOW[s]);
            counts = low;
        }
        counts
            .add_small(self.numbers[2 * k - 1], HIGH[k - 1])
            .symbols()
    }
}
