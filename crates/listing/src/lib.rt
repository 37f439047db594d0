// The 61 lines in their order, as plain numbers.
#![tactic(auto)]

ghost use Rattle.std.specs.Prelude.{◌≡◌};
ghost use Rattle.lines.specs.Worksheet.{in_order};

use lines::Lines;

// The lines as plain numbers, L01 to L61.
pub fn in_order(l: Lines) -> [u64; 61]
    ensures { result ≡ in_order l }
{
    [
        l.l01.0,
        l.l02.0,
        l.l03.0,
        u64::from(l.l04),
        l.l05.0,
        l.l06.0,
        l.l07.0,
        l.l08.0,
        l.l09.0,
        u64::from(l.l10),
        l.l11.0,
        l.l12.0,
        l.l13.0,
        l.l14.0,
        l.l15.0,
        l.l16.0,
        l.l17.0,
        l.l18.0,
        l.l19.0,
        l.l20.0,
        l.l21.0,
        l.l22.0,
        l.l23.0,
        l.l24.0,
        l.l25.0,
        l.l26.0,
        l.l27.0,
        l.l28.0,
        l.l29.0,
        l.l30.0,
        l.l31.0,
        l.l32.0,
        l.l33.0,
        l.l34.0,
        l.l35.0,
        l.l36.0,
        l.l37.0,
        l.l38.0,
        l.l39.0,
        l.l40.0,
        l.l41.0,
        l.l42.0,
        l.l43.0,
        l.l44.0,
        l.l45.0,
        l.l46.0,
        l.l47.0,
        l.l48.0,
        l.l49.0,
        l.l50.0,
        l.l51.0,
        l.l52.0,
        l.l53.0,
        l.l54.0,
        l.l55.0,
        l.l56.0,
        l.l57.0,
        l.l58.0,
        l.l59.0,
        l.l60.0,
        l.l61.0,
    ]
}
