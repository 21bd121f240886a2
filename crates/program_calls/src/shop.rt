//! A shop, and what stands in its tables behind each of its transactions.

use std::alloc::Global;
use val_types::{Bytes, List};

/// A shop: tables, a function, triggers and a procedure, sessions in each format, a transaction that is rolled back; 17 of its commands
/// commit, one transaction or definition each.
pub static SHOP: &str =
    "s1: CREATE TABLE item (id INT NOT NULL AUTO_INCREMENT, name VARCHAR(20) NOT NULL, stock INT NOT NULL, PRIMARY KEY (id), UNIQUE KEY n (name)) //
s1: CREATE TABLE orders (id INT NOT NULL AUTO_INCREMENT, item INT NOT NULL, qty INT NOT NULL, at VARCHAR(19) NOT NULL, PRIMARY KEY (id)) //
s1: CREATE TABLE audit (id INT NOT NULL AUTO_INCREMENT, what VARCHAR(40) NOT NULL, PRIMARY KEY (id)) //
s1: CREATE TABLE token (k INT NOT NULL, v VARCHAR(36), who INT, PRIMARY KEY (k)) //
s1: CREATE FUNCTION left_of(i INT) RETURNS INT RETURN (SELECT stock FROM item WHERE id = i) //
s1: CREATE TRIGGER o_bi BEFORE INSERT ON orders FOR EACH ROW UPDATE item SET stock = stock - NEW.qty WHERE id = NEW.item //
s1: CREATE TRIGGER o_ai AFTER INSERT ON orders FOR EACH ROW INSERT INTO audit (what) VALUES (CONCAT('left ', left_of(NEW.item))) //
s1: CREATE PROCEDURE buy(i INT, q INT) BEGIN IF left_of(i) >= q THEN INSERT INTO orders (item, qty, at) VALUES (i, q, NOW()); END IF; END //
s1: INSERT INTO item (name, stock) VALUES ('pen', 10), ('ink', 3) //
s1: CALL buy(1, 4) //
s2: SET binlog_format = 'STATEMENT' //
s2: INSERT INTO token VALUES (1, NOW(), CONNECTION_ID()) //
s2: INSERT INTO item (name, stock) VALUES ('nib', 8) //
s2: INSERT INTO token VALUES (2, NULL, LAST_INSERT_ID()) //
s3: SET binlog_format = 'ROW' //
s3: INSERT INTO token VALUES (3, UUID(), 0) //
s1: UPDATE token SET v = UUID() WHERE k = 2 //
s3: BEGIN //
s3: INSERT INTO item (name, stock) VALUES ('cap', 1) //
s3: ROLLBACK //
s1: INSERT INTO item (name, stock) VALUES ('cap', 2) //
s1: CALL buy(2, 5) //
s1: CALL buy(3, 8) //
";

/// A line of the shop's dump, with the numbers of transactions from and until which it stands there.
struct Line {
    text: &'static str,
    from: u64,
    until: u64,
}

/// Until the end.
const END: u64 = 18;

/// All of them, as a dump has them.
static LINES: [Line; 20] = [
    Line {
        text: "create CREATE TABLE `item` (`id` INT NOT NULL AUTO_INCREMENT, `name` VARCHAR(20) NOT NULL, `stock` INT NOT NULL, PRIMARY KEY (`id`), UNIQUE KEY `n` (`name`))\n",
        from: 1,
        until: END,
    },
    Line {
        text: "row 1, 'pen', 10\n",
        from: 9,
        until: 10,
    },
    Line {
        text: "row 1, 'pen', 6\n",
        from: 10,
        until: END,
    },
    Line {
        text: "row 2, 'ink', 3\n",
        from: 9,
        until: END,
    },
    Line {
        text: "row 3, 'nib', 8\n",
        from: 12,
        until: 17,
    },
    Line {
        text: "row 3, 'nib', 0\n",
        from: 17,
        until: END,
    },
    Line {
        text: "row 5, 'cap', 2\n",
        from: 16,
        until: END,
    },
    Line {
        text: "create CREATE TABLE `orders` (`id` INT NOT NULL AUTO_INCREMENT, `item` INT NOT NULL, `qty` INT NOT NULL, `at` VARCHAR(19) NOT NULL, PRIMARY KEY (`id`))\n",
        from: 2,
        until: END,
    },
    Line {
        text: "row 1, 1, 4, '2023-11-14 22:13:30'\n",
        from: 10,
        until: END,
    },
    Line {
        text: "row 2, 3, 8, '2023-11-14 22:13:43'\n",
        from: 17,
        until: END,
    },
    Line {
        text: "create CREATE TABLE `audit` (`id` INT NOT NULL AUTO_INCREMENT, `what` VARCHAR(40) NOT NULL, PRIMARY KEY (`id`))\n",
        from: 3,
        until: END,
    },
    Line {
        text: "row 1, 'left 6'\n",
        from: 10,
        until: END,
    },
    Line {
        text: "row 2, 'left 0'\n",
        from: 17,
        until: END,
    },
    Line {
        text: "create CREATE TABLE `token` (`k` INT NOT NULL, `v` VARCHAR(36) NULL, `who` INT NULL, PRIMARY KEY (`k`))\n",
        from: 4,
        until: END,
    },
    Line {
        text: "row 1, '2023-11-14 22:13:32', 2\n",
        from: 11,
        until: END,
    },
    Line {
        text: "row 2, NULL, 3\n",
        from: 13,
        until: 15,
    },
    Line {
        text: "row 2, '00000000-0000-0000-0000-000000000011', 3\n",
        from: 15,
        until: END,
    },
    Line {
        text: "row 3, '00000000-0000-0000-0000-000000000010', 0\n",
        from: 14,
        until: END,
    },
    Line {
        text: "create CREATE FUNCTION `left_of`(`i` INT) RETURNS INT RETURN (SELECT `stock` FROM `item` WHERE (`id` = `i`))\n",
        from: 5,
        until: END,
    },
    Line {
        text: "create CREATE TRIGGER `o_bi` BEFORE INSERT ON `orders` FOR EACH ROW UPDATE `item` SET `stock` = (`stock` - NEW.`qty`) WHERE (`id` = NEW.`item`)\n",
        from: 6,
        until: END,
    },
];

/// And the last two.
static LAST_LINES: [Line; 2] = [
    Line {
        text: "create CREATE TRIGGER `o_ai` AFTER INSERT ON `orders` FOR EACH ROW INSERT INTO `audit` (`what`) VALUES (CONCAT('left ', `left_of`(NEW.`item`)))\n",
        from: 7,
        until: END,
    },
    Line {
        text: "create CREATE PROCEDURE `buy`(`i` INT, `q` INT) BEGIN IF (`left_of`(`i`) >= `q`) THEN INSERT INTO `orders` (`item`, `qty`, `at`) VALUES (`i`, `q`, NOW()); END IF; END\n",
        from: 8,
        until: END,
    },
];

/// Puts the lines that stand there behind so many transactions.
fn put_lines(text: &mut Bytes, lines: &[Line], number: u64) {
    for line in lines {
        if line.from <= number && number < line.until {
            let _ = text.extend_from_slice(line.text.as_bytes());
        }
    }
}

/// The dump of the shop behind so many transactions.
pub fn dump_at(alloc: Global, number: u64) -> Bytes {
    let mut text = List::new(alloc);
    put_lines(&mut text, LINES.as_slice(), number);
    put_lines(&mut text, LAST_LINES.as_slice(), number);
    text
}

/// How many commands were answered: each answer of the shop is one line.
pub fn answered(written: &[u8]) -> usize {
    let mut lines: usize = 0;
    for byte in written {
        if *byte == b'\n' {
            lines = lines.saturating_add(1);
        }
    }
    lines
}
