// Dates. The seconds of those that Python's `email.utils` reads too were computed with it, the others by hand.
use overview_lines::read_date;

// Texts, with the seconds of those that are dates.
const DATES: [(&[u8], Option<u64>); 72] = [
    // with a day of the week and seconds, and without
    (b"Thu, 01 Jan 1970 00:00:00 +0000", Some(0)),
    (b"Fri, 21 Nov 1997 09:55:06 -0600", Some(880_127_706)),
    (b"1 Jul 2003 10:52:37 +0200", Some(1_057_049_557)),
    (b"Tue, 1 Jul 2003 10:52 +0200", Some(1_057_049_520)),
    (b"1 Jul 2003 10:52 +0200", Some(1_057_049_520)),
    (b"01 Jul 2003 10:52 +0200", Some(1_057_049_520)),
    // another day of the week than the date's, and one that is none
    (b"Wed, 1 Jul 2003 10:52 +0200", Some(1_057_049_520)),
    (b"xyz, 1 Jul 2003 10:52 +0200", Some(1_057_049_520)),
    // leap days
    (b"29 Feb 2000 12:00:00 GMT", Some(951_825_600)),
    (b"29 Feb 2024 23:59:59 UT", Some(1_709_251_199)),
    (b"28 Feb 2100 00:00:00 UTC", Some(4_107_456_000)),
    (b"1 Mar 2100 00:00:00 +0000", Some(4_107_542_400)),
    (b"29 Feb 2400 00:00:00 +0000", Some(13_574_563_200)),
    // a leap second
    (b"31 Dec 2016 23:59:60 +0000", Some(1_483_228_800)),
    // zones
    (b"Thu, 01 Jan 1970 02:00:10 +0200 (EET)", Some(10)),
    (b"Thu, 01 Jan 1970 01:00:00 +0100", Some(0)),
    (b"31 May 2021 00:00 -0000", Some(1_622_419_200)),
    (b"30 Nov 2023 00:00 +0530", Some(1_701_282_600)),
    (b"31 Aug 2019 23:59:59 +2359", Some(1_567_209_659)),
    (b"31 Dec 9999 23:59:60 -2359", Some(253_402_387_140)),
    // what stands behind the zone, and several spaces
    (b"1 Jul 2003 10:52 +0200 ", Some(1_057_049_520)),
    (b"1 Jul 2003 10:52 +0200 (CEST) x", Some(1_057_049_520)),
    (
        b"Sat,  5   Oct  2024  07:08:09   -1130 junk",
        Some(1_728_153_489),
    ),
    (b"Sat,    5 Oct 2024 07:08:09 -1130   ", Some(1_728_153_489)),
    // texts that are cut short
    (b"", None),
    (b" ", None),
    (b"1", None),
    (b"1 Jul", None),
    (b"1 Jul 2003", None),
    (b"1 Jul 2003 10:52", None),
    (b"1 Jul 2003 10:52 ", None),
    // a moment before 1970, and a year before it
    (b"Thu, 01 Jan 1970 00:00:00 +0100", None),
    (b"31 Dec 1969 23:59:59 +0000", None),
    (b"31 Dec 1969 23:59:59 -0100", None),
    // days that the calendar doesn't have
    (b"0 Jul 2003 10:52 +0200", None),
    (b"32 Jul 2003 10:52 +0200", None),
    (b"31 Jun 2003 10:52 +0200", None),
    (b"30 Feb 2024 10:52 +0200", None),
    (b"29 Feb 2023 10:52 +0200", None),
    (b"29 Feb 2100 10:52 +0200", None),
    // the day of the week
    (b"Tue 1 Jul 2003 10:52 +0200", None),
    (b"Tue,1 Jul 2003 10:52 +0200", None),
    (b"Tues, 1 Jul 2003 10:52 +0200", None),
    (b"Tu, 1 Jul 2003 10:52 +0200", None),
    (b"Tue , 1 Jul 2003 10:52 +0200", None),
    (b"Tue, Tue, 1 Jul 2003 10:52 +0200", None),
    (b" 1 Jul 2003 10:52 +0200", None),
    // the day, the month and the year
    (b"001 Jul 2003 10:52 +0200", None),
    (b"x Jul 2003 10:52 +0200", None),
    (b"1 jul 2003 10:52 +0200", None),
    (b"1 JUL 2003 10:52 +0200", None),
    (b"1 July 2003 10:52 +0200", None),
    (b"1 07 2003 10:52 +0200", None),
    (b"1 Jul 03 10:52 +0200", None),
    (b"1 Jul 12003 10:52 +0200", None),
    (b"1\tJul 2003 10:52 +0200", None),
    // the time
    (b"1 Jul 2003 24:00 +0200", None),
    (b"1 Jul 2003 10:60 +0200", None),
    (b"1 Jul 2003 10:52:61 +0200", None),
    (b"1 Jul 2003 9:52 +0200", None),
    (b"1 Jul 2003 10:5 +0200", None),
    (b"1 Jul 2003 10:52: +0200", None),
    (b"1 Jul 2003 10:52:3 +0200", None),
    (b"1 Jul 2003 10:52:003 +0200", None),
    (b"1 Jul 2003 10.52 +0200", None),
    // the zone
    (b"1 Jul 2003 10:52 0200", None),
    (b"1 Jul 2003 10:52 +200", None),
    (b"1 Jul 2003 10:52 +02000", None),
    (b"1 Jul 2003 10:52 +02:00", None),
    (b"1 Jul 2003 10:52 +2400", None),
    (b"1 Jul 2003 10:52 +0260", None),
    (b"1 Jul 2003 10:52 EST", None),
];

#[test]
fn dates_are_read(rt: HostRuntime) {
    for (text, seconds) in &DATES {
        assert_eq!(rt; read_date(text), *seconds);
    }
}
