//! Bytes that other tools made, and broken ones.

use std::alloc::{AllocError, Global};
use std::test::Fail;
use wac_component::*;

/// A component that a validator takes: interfaces with resources, uses and each kind of type, core modules, canonical
/// functions, a nested component.
const REAL: &str = "\
    0061736d0d00010007b101014216040001720301016900014001016179000104000e5b636f6e7374727563746f725d72\
    01020168000140020473656c6603017803007304000b5b6d6574686f645d722e6d010401707301720201617d01620504\
    00017003000601710201780000017901070004000176030008016e0201710177040002666c03000a016d01016b040001\
    6503000c016b09016a017d0173016f027d7401700d01400401610701620e01630f01641000110400016601120a0e0100\
    09743a742f7479706573050006060103000001720606010300000170074b01420b020302010104000172030000020302\
    010204000170030002016e010161040003666c3203000401690101400201780601790300060400016701070140010161\
    0501000400016801080a0d010008743a742f6d6f7265050307080140010161790073013c0061736d01000000010e0260\
    017f017f60047f7f7f7f017f03030200010503010001070d030166000001720001016d02000a09020300000b0300000b\
    02040100000006130300000100016600000100017200020100016d080b01000000030003000401040b0901000372756e\
    0100000704013f7f0007050140000100013a0061736d01000000010c0260000060047f7f7f7f017f0303020001050301\
    0001070d030166000001720001016d02000a09020300000b0300000b0204010001000613030000010101660000010101\
    7200020101016d080b01000002030003010403060703016805070b0140010473656c66070100013b0061736d01000000\
    010d0260017f0060047f7f7f7f017f03030200010503010001070d030166000001720001016d02000a09020300000b03\
    00000b02040100020006130300000102016600000102017200020102016d080b010000040300030204050804ae010061\
    736d0d0001000a1301000e696d706f72742d747970652d78300301070501400001000a1301000e696d706f72742d6675\
    6e632d783101010703016800070b0140010473656c660201000a1301000e696d706f72742d66756e632d783201030705\
    01400001000b090100017a01000101040b0d0100076f776e2d7265730300000703016805070b0140010473656c660601\
    000b190100115b6d6574686f645d6f776e2d7265732e6d01010101070537010000030e696d706f72742d747970652d78\
    3003050e696d706f72742d66756e632d783101020e696d706f72742d66756e632d783201030b0701000174050200";

/// Its sections: the number of each, and how many entries or bytes it has.
const SHAPE: [(u8, usize); 27] = [
    (7, 1),
    (10, 1),
    (6, 1),
    (6, 1),
    (7, 1),
    (10, 1),
    (7, 1),
    (1, 60),
    (2, 1),
    (6, 3),
    (8, 1),
    (11, 1),
    (7, 1),
    (7, 1),
    (1, 58),
    (2, 1),
    (6, 3),
    (8, 1),
    (7, 1),
    (7, 1),
    (1, 59),
    (2, 1),
    (6, 3),
    (8, 1),
    (4, 174),
    (5, 1),
    (11, 1),
];

/// A section's number, and how many entries or bytes it has.
fn shape_of(section: &Section<'_>) -> (u8, usize) {
    match section {
        Section::Custom(_, rest) => (0, rest.len()),
        Section::CoreModule(bytes) => (1, bytes.len()),
        Section::CoreInstances(instances) => (2, instances.len()),
        Section::CoreTypes(types) => (3, types.len()),
        Section::Nested(bytes) => (4, bytes.len()),
        Section::Instances(instances) => (5, instances.len()),
        Section::Aliases(aliases) => (6, aliases.len()),
        Section::Types(types) => (7, types.len()),
        Section::Canonicals(canonicals) => (8, canonicals.len()),
        Section::Start(_, arguments, _) => (9, arguments.len()),
        Section::Imports(imports) => (10, imports.len()),
        Section::Exports(exports) => (11, exports.len()),
    }
}

fn shapes_of(alloc: Global, sections: &[Section<'_>]) -> Result<Vec<(u8, usize)>, AllocError> {
    let mut shapes = Vec::new(alloc);
    for section in sections {
        shapes.push(shape_of(section))?;
    }
    Ok(shapes)
}

#[test]
fn real_components_are_read(rt: HostRuntime) -> Result<(), Fail> {
    let alloc = rt.alloc();
    let bytes = hex::decode(alloc, REAL)?;
    let sections = read_component(alloc, &bytes)?;
    let shapes = shapes_of(alloc, &sections)?;
    assert_eq!(rt; shapes.as_slice(), SHAPE.as_slice());
    let nested = sections.iter().find_map(|section| match section {
        Section::Nested(inside) => Some(*inside),
        _ => None,
    });
    let inside = read_component(alloc, nested.ok_or("no nested component")?)?;
    assert_eq!(rt; inside.len(), 12);
    Ok(())
}

/// What is wrong with bytes behind the preamble, and at which offset.
fn fault_of(alloc: Global, digits: &str) -> Result<Option<(usize, FaultKind)>, Fail> {
    let mut bytes = hex::decode(alloc, "0061736d0d000100")?;
    bytes.extend_from_slice(&hex::decode(alloc, digits)?)?;
    match read_component(alloc, &bytes) {
        Ok(_) => Ok(None),
        Err(ReadError::Refused { offset, kind }) => Ok(Some((offset, kind))),
        Err(ReadError::Memory) => Err(Fail::from("no memory")),
    }
}

/// Types of a resource, a stream, a future and a function, and each canonical function that a validator takes without a
/// memory.
const CANONICAL: &str =
    "070c043f7f006600650040000100084c250200030004000506000700090100000a7f000b7f010c000d0e010f0100100\
    1001101001201011301140115021602001702001802001902011a021b021e1f2223242526280029002a2b0042";

#[test]
fn canonical_functions_are_read(rt: HostRuntime) -> Result<(), Fail> {
    assert_eq!(rt; fault_of(rt.alloc(), CANONICAL)?, None);
    // A number that the standard gave up, one that it has not yet, and an option with no known number.
    assert_eq!(rt;
        fault_of(rt.alloc(), "08020108")?,
        Some((12, FaultKind::Canonical))
    );
    assert_eq!(rt;
        fault_of(rt.alloc(), "080201ff")?,
        Some((12, FaultKind::Canonical))
    );
    assert_eq!(rt;
        fault_of(rt.alloc(), "0805011c010a00")?,
        Some((15, FaultKind::CanonicalOption))
    );
    Ok(())
}

#[test]
fn faults_have_names_and_offsets(rt: HostRuntime) -> Result<(), Fail> {
    let alloc = rt.alloc();
    // No section at all, and a custom section whose size has five digits.
    assert_eq!(rt; fault_of(alloc, "")?, None);
    assert_eq!(rt; fault_of(alloc, "008380808000026162")?, None);
    assert_eq!(rt;
        fault_of(alloc, "0005026162")?,
        Some((10, FaultKind::Short))
    );
    assert_eq!(rt;
        fault_of(alloc, "00ffffffffff00")?,
        Some((14, FaultKind::Number))
    );
    assert_eq!(rt; fault_of(alloc, "000201ff")?, Some((12, FaultKind::Text)));
    assert_eq!(rt; fault_of(alloc, "0a020000")?, Some((11, FaultKind::Size)));
    assert_eq!(rt; fault_of(alloc, "0c0100")?, Some((10, FaultKind::Value)));
    assert_eq!(rt; fault_of(alloc, "0d0100")?, Some((10, FaultKind::Section)));
    // A core module type that exports a memory without a maximum, and one whose addresses have 64 bits.
    assert_eq!(rt; fault_of(alloc, "0309015001030161020001")?, None);
    assert_eq!(rt;
        fault_of(alloc, "0309015001030161020401")?,
        Some((18, FaultKind::CoreType))
    );
    assert_eq!(rt;
        fault_of(alloc, "0a0601020161010000")?,
        Some((12, FaultKind::NameOptions))
    );
    // An import stands in an instance type.
    assert_eq!(rt;
        fault_of(alloc, "0706014201030001610100")?,
        Some((14, FaultKind::Declaration))
    );
    Ok(())
}

#[test]
fn core_modules_are_no_components(rt: HostRuntime) -> Result<(), Fail> {
    let alloc = rt.alloc();
    let bytes = hex::decode(alloc, "0061736d01000000")?;
    match read_component(alloc, &bytes) {
        Err(ReadError::Refused { offset, kind }) => {
            assert_eq!(rt; (offset, kind), (5, FaultKind::Preamble));
            Ok(())
        }
        _ => Err(Fail::from("a core module is read")),
    }
}
