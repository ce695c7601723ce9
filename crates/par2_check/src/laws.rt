// What is unique.
ghost use Rattle.par2_check.specs.Laws.{OneListOfPackets, OneListOfRuns, OneSetOrNone};

/// A text has one list of packets.
pub fn one_list_of_packets()
    ensures { OneListOfPackets }
{}

/// A text has one set, or none.
pub fn one_set_or_none()
    ensures { OneSetOrNone }
{}

/// The numbers that pass a test have one list of greatest runs.
pub fn one_list_of_runs()
    ensures { OneListOfRuns }
{}
