// The lines, section by section, each section handed the lines of those before it.
ghost use Rattle.std.specs.Prelude.{◌≡◌, Ok, Err, MatchResult};
ghost use Rattle.faults.specs.Whole.{accept_of};
ghost use Rattle.lines.specs.Lines.{l03, l17, l20, l22, l23, l25, l44, l51, lines_of};
ghost use Rattle.lines.specs.Sections.{transfer_lines, vehicles_lines, pedestrians_lines, clearance_lines, warning_lines, gates_lines, green_lines, street_lines, assemble};

use super::sums;
use lines::{
    Clearance, Gates, Green, Lines, Pedestrians, Street, Timed, Transfer, Vehicles, Warning,
};
use sheet::{Refused, Sheet};
use transfer::Users;
use units::{Feet, Hundredths, Tenths};

// A sheet that is accepted.
#[derive(Clone, Copy)]
pub(crate) struct Accepted {
    pub(crate) sheet: Sheet,
    ghost accepted: { accept_of sheet ≡ Ok tt },
}

impl Accepted {
    pub(crate) fn of(s: Sheet) -> Result<Accepted, Refused>
        ensures { MatchResult result (λ a. a.sheet ≡ s) (λ e. accept_of s ≡ Err e) }
    {
        accept::accept(s)?;
        Ok(Accepted { sheet: s })
    }

    fn transfer_lines(self) -> Transfer
        ensures { result ≡ transfer_lines self.sheet }
    {
        let s = self.sheet;
        let l01 = sums::time(s.l01);
        let l02 = sums::time(s.l02);
        let l03 = sums::plus(l01, l02);
        let l16 = right_of_way::line16(s.listed_phases());
        let l17 = sums::plus(l03, l16);
        Transfer {
            l01,
            l02,
            l03,
            l16,
            l17,
        }
    }

    fn vehicle_lines(self) -> Vehicles
        ensures { result ≡ vehicles_lines self.sheet }
    {
        let s = self.sheet;
        let p = right_of_way::worst(Users::Vehicles, s.listed_phases());
        let l04 = p.number;
        let l05 = sums::time(p.green);
        let l06 = sums::time(p.other);
        let l07 = sums::time(p.yellow);
        let l08 = sums::time(p.red);
        let l09 = phase_time::time(Users::Vehicles, p);
        Vehicles {
            l04,
            l05,
            l06,
            l07,
            l08,
            l09,
        }
    }

    fn pedestrian_lines(self) -> Pedestrians
        ensures { result ≡ pedestrians_lines self.sheet }
    {
        let s = self.sheet;
        let p = right_of_way::worst(Users::Pedestrians, s.listed_phases());
        let l10 = p.number;
        let l11 = sums::time(p.walk);
        let l12 = sums::time(p.clearance);
        let l13 = ruled::waited(p, p.yellow);
        let l14 = ruled::waited(p, p.red);
        let l15 = phase_time::time(Users::Pedestrians, p);
        Pedestrians {
            l10,
            l11,
            l12,
            l13,
            l14,
            l15,
        }
    }

    fn clearance_lines(self) -> Clearance
        ensures { result ≡ clearance_lines self.sheet }
    {
        let s = self.sheet;
        let l18 = sums::distance(s.l18);
        let l19 = sums::distance(s.l19);
        let l20 = sums::distance(s.l20);
        let l21 = sums::along(l18, l19);
        let l22 = ruled::line22(l21);
        let l23 = sums::along(l19, l20);
        let l24 = sums::acceleration(s, s.grade, l23);
        let l25 = sums::plus(l22, l24);
        Clearance {
            l18,
            l19,
            l20,
            l21,
            l22,
            l23,
            l24,
            l25,
        }
    }

    fn warning_lines(self, m17: Tenths, m25: Tenths) -> Warning
        requires { (m17 ≡ l17 self.sheet) × (m25 ≡ l25 self.sheet) }
        ensures { result ≡ warning_lines self.sheet }
    {
        let s = self.sheet;
        let l28 = sums::time(s.l28);
        let l30 = sums::time(s.l30);
        let l31 = sums::time(s.l31);
        let l33 = sums::time(s.l33);
        let l29 = sums::plus(sums::plus(m17, m25), l28);
        let l32 = sums::plus(l30, l31);
        let l34 = sums::plus(l32, l33);
        let l35 = sums::less(l29, l34);
        Warning {
            l28,
            l29,
            l30,
            l31,
            l32,
            l33,
            l34,
            l35,
        }
    }

    fn gate_lines(self, m03: Tenths) -> Gates
        requires { m03 ≡ l03 self.sheet }
        ensures { result ≡ gates_lines self.sheet }
    {
        let s = self.sheet;
        let l37 = sums::multiplier(s.l37);
        let l38 = ruled::line38(s.l33, s.l37);
        let l39 = sums::time(s.l39);
        let l40 = sums::plus(l38, l39);
        let l42 = sums::time(0);
        let l43 = sums::plus(m03, l42);
        let l44 = sums::less(l40, l43);
        Gates {
            l37,
            l38,
            l39,
            l40,
            l42,
            l43,
            l44,
        }
    }

    fn green_lines(self, m22: Tenths, m23: Feet, m25: Tenths, m44: Tenths) -> Green
        requires { (m22 ≡ l22 self.sheet) × (m23 ≡ l23 self.sheet) × (m25 ≡ l25 self.sheet) × (m44 ≡ l44 self.sheet) }
        ensures { result ≡ green_lines self.sheet }
    {
        let s = self.sheet;
        let l47 = sums::distance(s.l47);
        let l48 = sums::along(m23, l47);
        let l49 = sums::acceleration(s, s.grade2, l48);
        let l50 = sums::plus(m22, l49);
        let l51 = ruled::line51(sums::number(m44), sums::number(l50), sums::number(m25));
        Green {
            l47,
            l48,
            l49,
            l50,
            l51,
        }
    }

    fn street_lines(self, m17: Tenths, m20: Feet, m22: Tenths) -> Street
        requires { (m17 ≡ l17 self.sheet) × (m20 ≡ l20 self.sheet) × (m22 ≡ l22 self.sheet) }
        ensures { result ≡ street_lines self.sheet }
    {
        let s = self.sheet;
        let l54 = sums::acceleration(s, s.grade, m20);
        let l55 = sums::plus(sums::plus(m17, m22), l54);
        let l56 = sums::time(s.l56);
        let l57 = sums::time(s.l57);
        let l58 = sums::multiplier(s.l58);
        let l59 = ruled::line59(s.l57, s.l58);
        let l60 = sums::plus(l56, l59);
        let l61 = sums::less(l55, l60);
        Street {
            l54,
            l55,
            l56,
            l57,
            l58,
            l59,
            l60,
            l61,
        }
    }

    // Lines 3 and 51, with the answer.
    pub(crate) fn timed_of(self) -> Timed
        ensures { result ≡ record { answer = Ok tt; l03 = l03 self.sheet; l51 = l51 self.sheet } }
    {
        let s = self.sheet;
        let l01 = sums::time(s.l01);
        let l02 = sums::time(s.l02);
        let l03 = sums::plus(l01, l02);
        let c = self.clearance_lines();
        let g = self.gate_lines(l03);
        let e = self.green_lines(c.l22, c.l23, c.l25, g.l44);
        Timed {
            answer: Ok(()),
            l03,
            l51: e.l51,
        }
    }

    // The 61 lines.
    pub(crate) fn lines_of(self) -> Lines
        ensures { result ≡ lines_of self.sheet }
    {
        let t = self.transfer_lines();
        let v = self.vehicle_lines();
        let p = self.pedestrian_lines();
        let c = self.clearance_lines();
        let w = self.warning_lines(t.l17, c.l25);
        let g = self.gate_lines(t.l03);
        let e = self.green_lines(c.l22, c.l23, c.l25, g.l44);
        let b = self.street_lines(t.l17, c.l20, c.l22);
        assembled(t, v, p, c, w, g, e, b)
    }
}

fn assembled(
    t: Transfer,
    v: Vehicles,
    p: Pedestrians,
    c: Clearance,
    w: Warning,
    g: Gates,
    e: Green,
    b: Street,
) -> Lines
    ensures { result ≡ assemble t v p c w g e b }
{
    let Transfer {
        l01,
        l02,
        l03,
        l16,
        l17,
    } = t;
    let Vehicles {
        l04,
        l05,
        l06,
        l07,
        l08,
        l09,
    } = v;
    let Pedestrians {
        l10,
        l11,
        l12,
        l13,
        l14,
        l15,
    } = p;
    let Clearance {
        l18,
        l19,
        l20,
        l21,
        l22,
        l23,
        l24,
        l25,
    } = c;
    let Warning {
        l28,
        l29,
        l30,
        l31,
        l32,
        l33,
        l34,
        l35,
    } = w;
    let Gates {
        l37,
        l38,
        l39,
        l40,
        l42,
        l43,
        l44,
    } = g;
    let Green {
        l47,
        l48,
        l49,
        l50,
        l51,
    } = e;
    let Street {
        l54,
        l55,
        l56,
        l57,
        l58,
        l59,
        l60,
        l61,
    } = b;
    Lines {
        l01,
        l02,
        l03,
        l04,
        l05,
        l06,
        l07,
        l08,
        l09,
        l10,
        l11,
        l12,
        l13,
        l14,
        l15,
        l16,
        l17,
        l18,
        l19,
        l20,
        l21,
        l22,
        l23,
        l24,
        l25,
        l26: l17,
        l27: l25,
        l28,
        l29,
        l30,
        l31,
        l32,
        l33,
        l34,
        l35,
        l36: l33,
        l37,
        l38,
        l39,
        l40,
        l41: l03,
        l42,
        l43,
        l44,
        l45: l22,
        l46: l23,
        l47,
        l48,
        l49,
        l50,
        l51,
        l52: l17,
        l53: l22,
        l54,
        l55,
        l56,
        l57,
        l58,
        l59,
        l60,
        l61,
    }
}
