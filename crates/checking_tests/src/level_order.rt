//! Levels compared, and the parameters of levels. What is expected was computed by another program, which tried all small
//! assignments.
//!
//! A case is letters: two levels and a sign. A small letter is a parameter; S, M and I are `succ`, `max` and `imax` of the
//! levels before them. The signs: `=` they are equal, `<` the left one is at most the right one and they are not equal,
//! `>` it is not at most the right one, `W` they are too wide.
//!
//! A level is kept as its sort, so that a test has nothing to prove of where its numbers lie.

ghost use Rattle.std.specs.Prelude.{◌<◌, length, IfOk};
ghost use Rattle.lk_store.specs.Contents.{IsLevelIn};

use lk_level_order::compared::{LevelError, equal, leq};
use lk_level_order::gathering::params_of;
use lk_store::base_store::BaseStore;
use lk_store::memory::NoMemory;
use lk_store::node::{LevelNode, NameNode, Node};
use lk_store::terms::Terms;
use std::alloc::Global;
use std::test::Fail;

/// Levels that show one thing each.
const SHOWN: [&str; 3] = [
    "a0I0=abSIabSM=abMa>aabM<abMbaM=aaIa=abIabM<a0>0a<",
    "0abMcMdMeMfMgMhMiMjMkMlMmMnMoMpMqMrMsMtMI0abMcMdMeMfMgMhMiMjMkMlMmMnMoMpMqMrMsMtMI=",
    "0abMcMdMeMfMgMhMiMjMkMlMmMnMoMpMqMrMsMtMuMI0abMcMdMeMfMgMhMiMjMkMlMmMnMoMpMqMrMsMtMuMIWa0abMcMdMeMfMgMhMiMjMkMlMmMnMoMpMqMrMsMtMuMIW",
];

/// Forty pairs of levels over three parameters.
const PAIRS: [&str; 20] = [
    "0aI0acIbaMMIMSS0abaMacIMMISS=ab>",
    "abbMbaIIc0MSMaMa0aISb0ISMIIcbIS0MI<aabMabMMb0IbbIMIMccaIMScbMaSIabI0aIIMII0Mb>",
    "baIaIbMbabMcbMIIISbIaSa0IIbI00MbbIIb0IIIcI0M>ac>",
    "00cbMS0cMc0MMMa0I0SISM0c0bMbcIIMIII<babc0IIabIcbIMMIS0I>",
    "00bcSIMcIcS00MMa0IabMIMaIIabcIISSaMI<aSbIa0IScS0aMIISSIcS>",
    "aabIbcIIIacISSM0Mc0M0MMc>b000I0bIIcSb0IMMSIIb0cSb0IMSIIb000I0bIISIIM=",
    "acIaaMIcSMSSS0>0bSbcIIcSIbaISSISbbII<",
    "b0aIS0aIaIISScSacIcI0cMcIIcSSabIbSMMIMM<bcbIIc>",
    "0abSISbcISccMSMIaaMS0cI0SMIccIcIbcIbcIMMIMS<aa0SII00IabIbaMMc0MaSMMaIbbMabMIScabIISIIM<",
    "0cbMMbcMSI0bMbbIIbcMIMSaMc0IS>baaMIbaIbaIM=",
    "0cSbSSMM0cSbSSIM=babIM0bIbIMbbMcbMIbbIb0IIMISSb>",
    "aSb>bc>",
    "cabIbIbSSIMaI0cIcaIM0SccMIIcbIbIaMISIb>0abIcaIbIcaMaaMII0IcII<",
    "0aSbSMMaSbSM0M=0aa0bIcbMIbcMSMISI<",
    "0SScbaI00MIIcSa0IcSMIISS<0ab0IISI0aSbbI0ISMI<",
    "cbccSII<aScScSMSMacSIS=",
    "bccSbSMccM0IMI0S0aI00MIIb0IScSMMMS<cS0bc0MISIabIcaII0aMbcMII0bMScIIIS<",
    "baSSScMMbIaaSSScMMbI=baMabM=",
    "aS0ccI0SMIIcISaS00M0SI00MccIIMIcIS=bbMaSMbaSM=",
    "bcMcbM=0cbMacMMSMaccIbMac0MMMSM=",
];

/// The level of a sort.
fn level_of<T: Terms>(terms: &T, e: u64) -> Result<u64, NoMemory>
    ensures { IfOk result (λ l. l < length (T.contents terms.now).levels) }
{
    if e >= terms.len() {
        return Err(NoMemory);
    }
    match terms.view(e) {
        Node::Sort(level) => Ok(level),
        _ => Err(NoMemory),
    }
}

fn sort<T: Terms>(terms: &mut T, node: LevelNode) -> Result<u64, NoMemory>
    requires { IsLevelIn (T.contents terms.old) node }
{
    let level = terms.make_level(node)?;
    terms.make(Node::Sort(level))
}

fn name<T: Terms>(terms: &mut T, letter: u8) -> Result<u64, NoMemory>
    ensures { IfOk result (λ n. n < length (T.contents terms.new).names) }
{
    let nothing = terms.make_name(NameNode::Anonymous)?;
    terms.make_name(NameNode::Number(nothing, u64::from(letter)))
}

fn param<T: Terms>(terms: &mut T, letter: u8) -> Result<u64, NoMemory> {
    let name = name(terms, letter)?;
    sort(terms, LevelNode::Param(name))
}

fn succ<T: Terms>(terms: &mut T, a: u64) -> Result<u64, NoMemory> {
    let level = level_of(terms, a)?;
    sort(terms, LevelNode::Succ(level))
}

fn of_two<T: Terms>(terms: &mut T, letter: u8, a: u64, b: u64) -> Result<u64, NoMemory> {
    let left = level_of(terms, a)?;
    let right = level_of(terms, b)?;
    if letter == b'M' {
        sort(terms, LevelNode::Max(left, right))
    } else {
        sort(terms, LevelNode::IMax(left, right))
    }
}

fn taken(stack: &mut Vec<u64>) -> Result<u64, NoMemory> {
    match stack.pop() {
        Some(e) => Ok(e),
        None => Err(NoMemory),
    }
}

/// The level that a letter makes of those on the stack.
fn grown<T: Terms>(terms: &mut T, stack: &mut Vec<u64>, letter: u8) -> Result<u64, NoMemory> {
    match letter {
        b'0' => sort(terms, LevelNode::Zero),
        b'S' => {
            let a = taken(stack)?;
            succ(terms, a)
        }
        b'M' | b'I' => {
            let b = taken(stack)?;
            let a = taken(stack)?;
            of_two(terms, letter, a, b)
        }
        _ => param(terms, letter),
    }
}

/// The answer, or none where the levels are too wide.
fn answer_of(answer: Result<bool, LevelError>) -> Result<Option<bool>, NoMemory> {
    match answer {
        Ok(holds) => Ok(Some(holds)),
        Err(error) => match error {
            LevelError::Width => Ok(None),
            LevelError::NoMemory => Err(NoMemory),
        },
    }
}

/// The sign of two answers.
fn sign(same: Option<bool>, below: Option<bool>) -> u8 {
    if same == Some(true) && below == Some(true) {
        b'='
    } else if same == Some(false) && below == Some(true) {
        b'<'
    } else if same == Some(false) && below == Some(false) {
        b'>'
    } else if same.is_none() && below.is_none() {
        b'W'
    } else {
        b'?'
    }
}

/// The sign of two levels.
fn sign_of<T: Terms>(alloc: Global, terms: &T, left: u64, right: u64) -> Result<u8, NoMemory> {
    let a = level_of(terms, left)?;
    let b = level_of(terms, right)?;
    let same = answer_of(equal(alloc, terms, a, b))?;
    let below = answer_of(leq(alloc, terms, a, b))?;
    Ok(sign(same, below))
}

fn is_sign(letter: u8) -> bool {
    letter == b'=' || letter == b'<' || letter == b'>' || letter == b'W'
}

/// Whether each case has its sign.
fn all_hold<T: Terms>(alloc: Global, terms: &mut T, letters: &[u8]) -> Result<bool, NoMemory> {
    let mut stack: Vec<u64> = Vec::new(alloc);
    for i in 0..letters.len() {
        let letter = letters[i];
        if is_sign(letter) {
            let right = taken(&mut stack)?;
            let left = taken(&mut stack)?;
            let found = sign_of(alloc, terms, left, right)?;
            if found != letter {
                return Ok(false);
            }
        } else {
            let e = grown(terms, &mut stack, letter)?;
            stack.push(e)?;
        }
    }
    Ok(true)
}

/// The level that letters make, as its sort.
fn made<T: Terms>(alloc: Global, terms: &mut T, letters: &[u8]) -> Result<u64, NoMemory> {
    let mut stack: Vec<u64> = Vec::new(alloc);
    for i in 0..letters.len() {
        let e = grown(terms, &mut stack, letters[i])?;
        stack.push(e)?;
    }
    taken(&mut stack)
}

/// Whether numbers are those of the names of letters.
fn are_names<T: Terms>(terms: &mut T, numbers: &[u64], letters: &[u8]) -> Result<bool, NoMemory> {
    if numbers.len() != letters.len() {
        return Ok(false);
    }
    for i in 0..letters.len() {
        let name = name(terms, letters[i])?;
        if numbers.get(i) != Some(&name) {
            return Ok(false);
        }
    }
    Ok(true)
}

/// Whether the parameters of a level are these.
fn lists<T: Terms>(
    alloc: Global,
    terms: &mut T,
    letters: &[u8],
    wanted: &[u8],
) -> Result<bool, NoMemory> {
    let e = made(alloc, terms, letters)?;
    let level = level_of(terms, e)?;
    let found = params_of(alloc, terms, level)?;
    are_names(terms, &found, wanted)
}

fn table_holds<T: Terms>(alloc: Global, terms: &mut T, rows: &[&str]) -> Result<bool, NoMemory> {
    for i in 0..rows.len() {
        let right = all_hold(alloc, terms, rows[i].as_bytes())?;
        if !right {
            return Ok(false);
        }
    }
    Ok(true)
}

fn shown(alloc: Global) -> Result<bool, NoMemory> {
    let mut base = BaseStore::new(alloc);
    table_holds(alloc, &mut base, &SHOWN)
}

fn pairs(alloc: Global) -> Result<bool, NoMemory> {
    let mut base = BaseStore::new(alloc);
    table_holds(alloc, &mut base, &PAIRS)
}

fn two_listed(alloc: Global) -> Result<bool, NoMemory> {
    let mut base = BaseStore::new(alloc);
    lists(alloc, &mut base, b"abM", b"ab")
}

fn each_listed_once(alloc: Global) -> Result<bool, NoMemory> {
    let mut base = BaseStore::new(alloc);
    lists(alloc, &mut base, b"bcaMIcSbIM", b"bca")
}

#[test]
fn levels_that_show_one_thing(rt: HostRuntime) -> Result<(), Fail> {
    assert!(rt; shown(rt.alloc())?);
    Ok(())
}

#[test]
fn forty_pairs(rt: HostRuntime) -> Result<(), Fail> {
    assert!(rt; pairs(rt.alloc())?);
    Ok(())
}

#[test]
fn two_parameters(rt: HostRuntime) -> Result<(), Fail> {
    assert!(rt; two_listed(rt.alloc())?);
    Ok(())
}

#[test]
fn each_parameter_once(rt: HostRuntime) -> Result<(), Fail> {
    assert!(rt; each_listed_once(rt.alloc())?);
    Ok(())
}
