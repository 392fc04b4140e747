//! A prediction table by another author: rows at even steps, computed and not stored. It gets the search, the window
//! and the shifts of every prediction table.
#![tactic(auto)]

pub mod even_table;

#[cfg(test)]
mod tests {
    use crate::even_table::EvenTable;
    use crate::even_table::reads::even_window;
    use calendar::instant::Timestamp;
    use refusal::Refusal;
    use shifts::shifted::Shifted;
    use std::test::Fail;
    use tables::windows::window;

    fn at(day: u32, micros: u64) -> Timestamp {
        Timestamp { day, micros }
    }

    #[test]
    fn ten_rows(rt: HostRuntime) -> Result<(), Fail> {
        let ten = EvenTable::new(at(60_000, 0), 60, 10)?;
        assert_eq!(rt; even_window(&ten, at(60_000, 240_000_000)), Ok(0));
        assert_eq!(rt; even_window(&ten, at(60_000, 299_999_999)), Ok(0));
        assert_eq!(rt;
            even_window(&ten, at(60_000, 239_999_999)),
            Err(Refusal::WindowTooEarly)
        );
        assert_eq!(rt;
            even_window(&ten, at(60_000, 300_000_000)),
            Err(Refusal::WindowTooLate)
        );
        assert_eq!(rt;
            even_window(&ten, at(40_586, 240_000_000)),
            Err(Refusal::OutsideCalendar)
        );
        Ok(())
    }

    #[test]
    fn eleven_rows_and_none(rt: HostRuntime) -> Result<(), Fail> {
        let eleven = EvenTable::new(at(60_000, 0), 60, 11)?;
        assert_eq!(rt; even_window(&eleven, at(60_000, 300_000_000)), Ok(1));
        let none = EvenTable::new(at(60_000, 0), 60, 0)?;
        assert_eq!(rt;
            even_window(&none, at(60_000, 0)),
            Err(Refusal::WindowTooEarly)
        );
        Ok(())
    }

    #[test]
    fn ten_rows_shifted(rt: HostRuntime) -> Result<(), Fail> {
        let ten = EvenTable::new(at(60_000, 0), 60, 10)?;
        let mut shifted = Shifted::new(&ten);
        shifted.set_shift(1_000_000)?;
        assert_eq!(rt;
            shifted.set_shift(86_400_000_001),
            Err(Refusal::ShiftTooLarge)
        );
        assert_eq!(rt; shifted.set_shift(i64::MIN), Err(Refusal::ShiftTooLarge));
        assert_eq!(rt; window(&shifted, at(60_000, 241_000_000)), Ok(0));
        assert_eq!(rt;
            window(&shifted, at(60_000, 240_000_000)),
            Err(Refusal::WindowTooEarly)
        );
        Ok(())
    }
}
