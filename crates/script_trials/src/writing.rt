use bench::{Angle, Fault, Feeder, Part, SetUpRefusal, ShiftRefusal, Site, State};
use script::{Answer, Expected, pair_text};
use std::process::Abort;
use std::test::*;

const FRESH: State = State {
    site: Site::FIRST,
    angle: Angle::ZERO,
    nozzle: None,
    counts: [0, 1, 2, 3, 4, 5, 999, 7],
    bin: 0,
    sites: [None; 32],
};

fn writes(rt: &(impl Abort + AllocGlobal), answer: Answer, text: &str) -> Result<(), Fail> {
    assert_eq!(rt; answer.to_string(rt.alloc())?.as_str(), text);
    Ok(())
}

#[test]
fn short_answers(rt: HostRuntime) -> Result<(), Fail> {
    writes(&rt, Answer::Done, "ok")?;
    writes(
        &rt,
        Answer::SetUpRefused(SetUpRefusal::CountOutOfRange),
        "refused 48",
    )?;
    writes(
        &rt,
        Answer::ShiftRefused(ShiftRefusal::ShiftOutOfRange),
        "refused 49",
    )?;
    writes(&rt, Answer::Number(-1), "number -1")?;
    writes(&rt, Answer::Fault(Fault::SiteTaken), "fault 47")
}

#[test]
fn a_fresh_state(rt: HostRuntime) -> Result<(), Fail> {
    writes(
        &rt,
        Answer::State(FRESH),
        "state 0 0 - counts 0 1 2 3 4 5 999 7 bin 0 sites none",
    )
}

#[test]
fn a_used_state(rt: HostRuntime) -> Result<(), Fail> {
    let Some(feeder) = Feeder::new(7) else {
        return Err(Fail::new("no feeder"));
    };
    let Some(angle) = Angle::new(35_999) else {
        return Err(Fail::new("no angle"));
    };
    let Some(site) = Site::new(31) else {
        return Err(Fail::new("no site"));
    };
    let mut sites = [None; 32];
    sites[2] = Some(Part {
        feeder: Feeder::FIRST,
        angle: Angle::ZERO,
    });
    sites[31] = Some(Part { feeder, angle });
    let nozzle = Some(feeder);
    let state = State {
        site,
        angle,
        nozzle,
        counts: [0; 8],
        bin: 12,
        sites,
    };
    writes(
        &rt,
        Answer::State(state),
        "state 31 35999 7 counts 0 0 0 0 0 0 0 0 bin 12 sites 2:0:0 31:7:35999",
    )
}

#[test]
fn refused_tables(rt: HostRuntime) -> Result<(), Fail> {
    let refused = Answer::TableRefused {
        layer: 3,
        cause: 11,
        place: 256,
    };
    writes(&rt, refused, "refused 3 11 256")
}

#[test]
fn pairs(rt: HostRuntime) -> Result<(), Fail> {
    let heap = rt.alloc();
    assert_eq!(rt;
        pair_text(heap, &Answer::Done, &Answer::Done)?.as_str(),
        "ok"
    );
    assert_eq!(rt;
        pair_text(heap, &Answer::Number(5), &Answer::Fault(Fault::NoSite))?.as_str(),
        "DIFFER number 5 | fault 41"
    );
    Ok(())
}

#[test]
fn messages(rt: HostRuntime) -> Result<(), Fail> {
    let expected = Expected::Kind;
    assert_eq!(rt;
        format!(in rt.alloc(); "line 3: {expected}")?.as_str(),
        "line 3: expected a bench kind, site or log"
    );
    Ok(())
}
