// A grade as its number in the table of lines.
#![tactic(auto)]

ghost use Rattle.std.specs.Prelude.{◌≡◌};
ghost use Rattle.numbers.specs.Flat.{grade_number};

// 1,000,000 more than the grade.
#[tactic(auto, unfolding(numbers::specs::Flat::grade_number))]
pub fn grade_number(grade: i16) -> u32
    ensures { result ≡ grade_number grade }
{
    (1000000 + i32::from(grade)) as u32
}
