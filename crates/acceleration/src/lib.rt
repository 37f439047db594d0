// The acceleration time: to 400 ft the level time by the points, times the factor; from 425 ft the far time; between them straight from the one to the other.
#![tactic(auto)]

ghost use Rattle.std.specs.Prelude.{◌≡◌, ◌≤◌};
ghost use Rattle.curve.specs.Curve.{acceleration_of, between_of, curve_time_of, graded_of, joined_of, level_of};

use scale::Fraction;
use sheet::{Point, Vehicle};
use units::{Feet, Tenths};

// On the straight line between two points, up to a tenth.
fn between(p: Point, q: Point, distance: Feet) -> Tenths
    requires { distance.0 ≤ q.feet }
    ensures { (result ≡ between_of p q distance) × (result.0 ≤ 4294967295) }
{
    let rise = q.tenths.saturating_sub(p.tenths);
    let run = distance.0.saturating_sub(u64::from(p.feet));
    let width = q.feet.saturating_sub(p.feet);
    let part = units::div_up(u64::from(rise) * run, u64::from(width));
    Tenths(u64::from(p.tenths) + part)
}

// The level time, by the two points around the distance; a point's time has 32 bits, and so has this.
fn level_time(points: &[Point], distance: Feet) -> Tenths
    ensures { (result ≡ level_of points.now distance) × (result.0 ≤ 4294967295) }
{
    let Some((&first, rest)) = points.split_first() else {
        return Tenths(0);
    };
    let mut p = first;
    for &q in rest {
        if distance.0 <= u64::from(q.feet) {
            return between(p, q, distance);
        }
        p = q;
    }
    // A cast, since `u64::from` doesn't tell the proof that the number had 32 bits.
    Tenths(p.tenths as u64)
}

// A level time on a grade: times the factor, taken up.
fn graded(factor: Fraction, time: Tenths) -> Tenths
    requires { (time.0 ≤ 4294967295) × (factor.over ≤ 100000) }
    ensures { result ≡ graded_of factor time }
{
    Tenths(units::div_up(time.0 * factor.over, factor.under))
}

// By the sheet's points alone: the level time on the grade. A vehicle, its grade and a distance go together here and below, and stay apart for all that: the definitions take them so, and the distance alone changes, to 400 or 425 ft.
fn by_curve(points: &[Point], vehicle: Vehicle, grade: i16, distance: Feet) -> Tenths
    ensures { (result ≡ curve_time_of points.now vehicle grade distance) × (result.0 ≤ 8589934590) }
{
    let time = level_time(points, distance);
    graded(grade_factor::factor(vehicle, grade, distance), time)
}

// Straight from the time at 400 ft to the exact one at 425, taken up once.
fn joined(start: Tenths, end: Fraction, distance: Feet) -> Tenths
    requires { (start.0 ≤ 8589934590) × (end.over ≤ 524000) × (end.under ≤ 500) × (400 ≤ distance.0) × (distance.0 ≤ 425) }
    ensures { result ≡ joined_of start end distance }
{
    let past = distance.0 - 400;
    let over = (25 - past) * (start.0 * end.under) + past * end.over;
    Tenths(units::div_up(over, 25 * end.under))
}

// The time to accelerate over a distance, on a grade.
pub fn acceleration(points: &[Point], vehicle: Vehicle, grade: i16, distance: Feet) -> Tenths
    ensures { result ≡ acceleration_of points.now vehicle grade distance }
{
    if distance.0 <= 400 {
        return by_curve(points, vehicle, grade, distance);
    }
    if distance.0 < 425 {
        let at_400 = by_curve(points, vehicle, grade, Feet(400));
        let at_425 = far_time::far(vehicle, grade, Feet(425));
        return joined(at_400, at_425, distance);
    }
    let far = far_time::far(vehicle, grade, distance);
    Tenths(units::div_up(far.over, far.under))
}
