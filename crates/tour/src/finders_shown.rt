//! Asks two finders, and the shrinking layer over one, which wishes for a pump skid can be had together.
use clause_tables::ClauseRecord;
use finder_count::CountThrough;
use finder_search::Search;
use finder_shrinking::Shrinking;
use finders::{Answer, Finder};
use std::{fmt, io};
use terms::{Refusal, SoftSet};

// 1 is the electric pump, 2 the diesel pump, 3 the cooling circuit, 4 the fuel tank, 5 the flow meter.
const VARIABLES: usize = 5;

// There is a pump; the electric one is cooled, the diesel one has a tank, and a cooling circuit has a meter.
const NEEDS: [&[i32]; 4] = [&[1, 2], &[-1, 3], &[-2, 4], &[-3, 5]];

// Wish 0 does without the electric pump, 1 without the diesel pump, 2 without cooling, 3 without a tank, 4 without a meter.
const WISHES: [&[i32]; 5] = [&[-1], &[-2], &[-3], &[-4], &[-5]];

// The sets of wishes that are asked for; there is no wish 5.
const ASKED: [&[usize]; 8] = [
    &[],
    &[0],
    &[4],
    &[0, 1],
    &[1, 3],
    &[2, 3, 4],
    &[0, 1, 2, 3, 4],
    &[0, 5],
];

pub(crate) fn show(rt: &impl Print) -> io::Result<()> {
    let mut records = [ClauseRecord::blank(); 10];
    let mut literals = [0; 15];
    println!(rt; "The count-through finder answers.")?;
    let finder = CountThrough::new(&mut records, &mut literals, VARIABLES);
    play(rt, finder)?;
    println!(rt; "The shrinking layer over it answers.")?;
    let finder = CountThrough::new(&mut records, &mut literals, VARIABLES);
    play(rt, Shrinking::new(finder))?;
    println!(rt; "The search answers.")?;
    let finder = Search::new(&mut records, &mut literals, VARIABLES);
    play(rt, finder)
}

/// Enters the clauses, asks for sets of wishes, enters one clause more, and asks again.
fn play<F: Finder + Drop>(rt: &impl Print, mut finder: F) -> io::Result<()> {
    for clause in &NEEDS {
        show_added(rt, "Need", clause, finder.add_hard(clause))?;
    }
    for clause in &WISHES {
        show_added(rt, "Wish", clause, finder.add_soft(clause))?;
    }
    ask_all(rt, &finder)?;
    println!(rt; "  Fuel is not allowed on the site.")?;
    show_added(rt, "Need", &[-4], finder.add_hard(&[-4]))?;
    show_added(rt, "Need", &[6], finder.add_hard(&[6]))?;
    show_added(rt, "Need", &[-2], finder.add_hard(&[-2]))?;
    ask_all(rt, &finder)
}

/// The clause, and whether it was added.
fn show_added(
    rt: &impl Print,
    name: &str,
    clause: &[i32],
    outcome: Result<(), Refusal>,
) -> io::Result<()> {
    let literals = Joined {
        items: clause,
        separator: " ",
    };
    match outcome {
        Ok(()) => println!(rt; "  {name} {literals} is added."),
        Err(refusal) => println!(rt; "  {name} {literals} is refused with {}.", refusal.number()),
    }
}

/// Asks for each of the sets, and says what was answered.
fn ask_all<F: Finder>(rt: &impl Print, finder: &F) -> io::Result<()> {
    for numbers in &ASKED {
        let set = SoftSet::of(numbers);
        print!(rt; "  Asked for {}: ", Wishes(set))?;
        let mut buffer = [0; VARIABLES];
        match finder.ask(set, &mut buffer) {
            Ok(answer) => show_answer(rt, finder, answer, &buffer)?,
            Err(refusal) => println!(rt; "refused with {}.", refusal.number())?,
        }
    }
    Ok(())
}

/// The plan with the wishes that it breaks, or the wishes that stand against each other.
fn show_answer<F: Finder>(
    rt: &impl Print,
    finder: &F,
    answer: Answer,
    plan: &[u8],
) -> io::Result<()> {
    match answer {
        Answer::Core(core) => println!(rt; "no plan, as there is none for {}.", Wishes(core)),
        Answer::Model => {
            let values = Joined {
                items: plan,
                separator: "",
            };
            match finder.broken(plan) {
                Ok(broken) => println!(rt; "plan {values}, which breaks {}.", Wishes(broken)),
                Err(refusal) => println!(rt;
                    "plan {values}, which is refused with {}.",
                    refusal.number()
                ),
            }
        }
    }
}

/// Items with a separator between each two. Nothing is allocated to show them.
#[derive(Drop)]
struct Joined<'a, T> {
    items: &'a [T],
    separator: &'a str,
}

impl<T: fmt::Display> fmt::Display for Joined<'_, T> {
    fn fmt<W: fmt::Write>(&self, f: &mut fmt::Formatter<W>) -> fmt::Result {
        let mut separator = "";
        for item in self.items {
            write!(f, "{separator}{item}")?;
            separator = self.separator;
        }
        Ok(())
    }
}

/// The numbers of a set, or that there is none.
#[derive(Drop)]
struct Wishes(SoftSet);

impl fmt::Display for Wishes {
    fn fmt<W: fmt::Write>(&self, f: &mut fmt::Formatter<W>) -> fmt::Result {
        let mut numbers = self.0.members();
        let Some(lowest) = numbers.next() else {
            return f.write_str("none");
        };
        write!(f, "{lowest}")?;
        for number in numbers {
            write!(f, " and {number}")?;
        }
        Ok(())
    }
}
