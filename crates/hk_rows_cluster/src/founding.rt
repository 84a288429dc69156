//! What a manager of three makes of foundings, event by event.

use hk_stage::{Board, Opening, OpeningStep, Stage, StageAnswer, StageEvent, StageRefusal};

// Two foundings.
const F: u64 = 0x3f9c_27b1_d04e_8a65;

const G: u64 = 7;

/// What is seen of a step.
#[derive(Clone, Copy, Debug, PartialEq, Eq)]
struct Seen {
    answer: Option<StageAnswer>,
    founded: Option<u64>,
    opened: bool,
    stage: Stage,
}

/// An event at a reading, and what is seen of it.
#[derive(Clone, Copy)]
struct Row {
    name: &'static str,
    at: u32,
    event: StageEvent,
    seen: Seen,
}

/// A row that was seen otherwise.
#[derive(Clone, Copy, Debug, PartialEq, Eq)]
struct Other {
    name: &'static str,
    seen: Seen,
    wanted: Seen,
}

fn when(name: &'static str, at: u32, event: StageEvent, seen: Seen) -> Row {
    Row {
        name,
        at,
        event,
        seen,
    }
}

// No answer, and nothing logged.
fn nothing(stage: Stage) -> Seen {
    Seen {
        answer: None,
        founded: None,
        opened: false,
        stage,
    }
}

fn answered(answer: StageAnswer, stage: Stage) -> Seen {
    Seen {
        answer: Some(answer),
        ..nothing(stage)
    }
}

fn refused(refusal: StageRefusal, stage: Stage) -> Seen {
    answered(StageAnswer::No(refusal), stage)
}

// STATE tells the stage, which stays.
fn reserved(stage: Stage) -> Seen {
    answered(StageAnswer::State(stage), stage)
}

fn founded(founding: u64) -> Seen {
    Seen {
        founded: Some(founding),
        ..answered(StageAnswer::Yes, Stage::Founded(founding))
    }
}

fn opened(founding: u64) -> Seen {
    Seen {
        opened: true,
        ..nothing(Stage::Open(founding))
    }
}

fn told(from: u8, stage: Stage, asked: u64) -> StageEvent {
    StageEvent::Told(Board { from, stage, asked })
}

fn seen_of(step: &OpeningStep) -> Seen {
    Seen {
        answer: step.answer,
        founded: step.logged.founded,
        opened: step.logged.opened,
        stage: step.opening.stage,
    }
}

// The first row that is seen otherwise, from a manager 0 of some whose log tells the stage, and whose process began at 1.
fn first_other(managers: u8, stage: Stage, rows: &[Row]) -> Option<Other> {
    let mut opening = Opening::begin(managers, 0, stage, 1);
    for row in rows {
        let step = opening.step(u64::from(row.at), row.event);
        let seen = seen_of(&step);
        if seen != row.seen {
            return Some(Other {
                name: row.name,
                seen,
                wanted: row.seen,
            });
        }
        opening = step.opening;
    }
    None
}

#[test]
fn a_manager_is_founded_and_opens(rt: HostRuntime) {
    let rows = [
        when(
            "a board at first",
            5,
            told(1, Stage::Open(G), 4),
            nothing(Stage::Empty),
        ),
        when(
            "LOOK F",
            20_000,
            StageEvent::Look(F),
            reserved(Stage::Empty),
        ),
        when(
            "LOOK G",
            20_001,
            StageEvent::Look(G),
            refused(StageRefusal::AnotherInit, Stage::Empty),
        ),
        when(
            "FOUND G",
            20_002,
            StageEvent::Found(G),
            refused(StageRefusal::AnotherInit, Stage::Empty),
        ),
        when("FOUND F", 22_000, StageEvent::Found(F), founded(F)),
        when(
            "FOUND F again",
            22_001,
            StageEvent::Found(F),
            refused(StageRefusal::Wait, Stage::Founded(F)),
        ),
        when(
            "1 by an ask of before",
            22_100,
            told(1, Stage::Founded(F), 22_000),
            nothing(Stage::Founded(F)),
        ),
        when(
            "1",
            22_200,
            told(1, Stage::Founded(F), 22_001),
            nothing(Stage::Founded(F)),
        ),
        when(
            "2 of another founding",
            22_201,
            told(2, Stage::Founded(G), 22_100),
            nothing(Stage::Founded(F)),
        ),
        when(
            "2 at stage 0",
            22_202,
            told(2, Stage::Empty, 22_100),
            nothing(Stage::Founded(F)),
        ),
        when("2", 22_300, told(2, Stage::Founded(F), 22_200), opened(F)),
        when(
            "LOOK G when open",
            22_400,
            StageEvent::Look(G),
            refused(StageRefusal::Lives(F), Stage::Open(F)),
        ),
        when(
            "FOUND F when open",
            22_400,
            StageEvent::Found(F),
            refused(StageRefusal::Lives(F), Stage::Open(F)),
        ),
    ];
    assert_eq!(rt; first_other(3, Stage::Empty, &rows), None);
}

#[test]
fn a_founding_that_was_cut_short_is_made_again(rt: HostRuntime) {
    let rows = [
        when(
            "1 in the first 10 s",
            100,
            told(1, Stage::Founded(F), 10_001),
            nothing(Stage::Founded(F)),
        ),
        when(
            "LOOK G",
            12_000,
            StageEvent::Look(G),
            reserved(Stage::Founded(F)),
        ),
        when(
            "1 while reserved",
            21_999,
            told(1, Stage::Founded(F), 21_998),
            nothing(Stage::Founded(F)),
        ),
        when(
            "1 is open, while reserved",
            21_999,
            told(1, Stage::Open(F), 21_998),
            nothing(Stage::Founded(F)),
        ),
        when(
            "FOUND G too late",
            22_000,
            StageEvent::Found(G),
            refused(StageRefusal::Wait, Stage::Founded(F)),
        ),
        when(
            "LOOK G again",
            22_001,
            StageEvent::Look(G),
            reserved(Stage::Founded(F)),
        ),
        when("FOUND G", 22_002, StageEvent::Found(G), founded(G)),
        when(
            "1 is open with the former",
            22_100,
            told(1, Stage::Open(F), 22_050),
            nothing(Stage::Founded(G)),
        ),
        when(
            "1 is open",
            22_101,
            told(1, Stage::Open(G), 22_050),
            opened(G),
        ),
    ];
    assert_eq!(rt; first_other(3, Stage::Founded(F), &rows), None);
}

#[test]
fn the_only_manager_opens_at_once(rt: HostRuntime) {
    let opened_at_once = Seen {
        opened: true,
        stage: Stage::Open(F),
        ..founded(F)
    };
    let rows = [
        when("LOOK F", 10, StageEvent::Look(F), reserved(Stage::Empty)),
        when("FOUND F", 11, StageEvent::Found(F), opened_at_once),
    ];
    assert_eq!(rt; first_other(1, Stage::Empty, &rows), None);
}

#[test]
fn a_reserved_manager_shows_stage_0(rt: HostRuntime) {
    let founded = Opening::begin(3, 2, Stage::Founded(F), 1);
    let reserved = founded.step(5, StageEvent::Look(G)).opening;
    assert_eq!(rt; founded.shown(5), Stage::Founded(F));
    assert_eq!(rt; reserved.shown(10_004), Stage::Empty);
    assert_eq!(rt; reserved.shown(10_005), Stage::Founded(F));
    assert_eq!(rt;
        (founded.shown(5).number(), founded.takes_letters()),
        (1, false)
    );
}

#[test]
fn refusals_have_codes_and_texts(rt: HostRuntime) -> Result<(), std::test::Fail> {
    let alloc = rt.alloc();
    let lives = format!(in alloc; "{}", StageRefusal::Lives(F))?;
    assert_eq!(rt;
        (StageRefusal::Lives(F).code(), lives.as_str()),
        (1, "the group lives: founding 3f9c27b1d04e8a65")
    );
    assert_eq!(rt;
        (StageRefusal::Wait.code(), StageRefusal::AnotherInit.code()),
        (8, 10)
    );
    Ok(())
}
