// A card as it is read, and with its spectrum, which decoding starts from.
ghost use Rattle.std.specs.Prelude.{◌≡◌, true, length};
ghost use Rattle.algebra.specs.Lists.{table};
ghost use Rattle.rank.specs.Definitions.{is_card};
ghost use Rattle.coding.specs.Spectrum.{spectrum};

// Six symbols, none above 728.
#[derive(Clone, Copy)]
pub struct Card {
    pub symbols: [u16; 6],
    ghost is_card: { is_card symbols ≡ true },
}

impl Card {
    // The card that a list is.
    pub fn of_list(list: &[u16]) -> Self
        requires { (length list.now ≡ 6) × (is_card list.now ≡ true) }
        ensures { result.symbols ≡ list.now }
    {
        Card {
            symbols: lists::six(list),
        }
    }
}

// A card and the six coefficients of its spectrum.
#[derive(Clone, Copy)]
pub struct Received {
    pub card: Card,
    pub coefficients: [u16; 6],
    ghost spectrum_is: { coefficients ≡ table 6 (spectrum card.symbols) },
}

impl Received {
    pub fn new(card: Card) -> Self
        ensures { result.card ≡ card }
    {
        Received {
            card,
            coefficients: codec::spectrum(card.symbols),
        }
    }
}
